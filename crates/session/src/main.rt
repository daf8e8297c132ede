// The session program: answers each line of standard input, from a fresh picture on.
#![tactic(auto)]

// The session's picture: its longwords, and those of its heap.
const SIZE: u32 = 1024;

const HEAP: u32 = 256;

fn main(rt: HostRuntime) {
    let mut p = [0; program_session::PICTURE];
    let mut chunk = [0; program_pieces::LARGE];
    let mut line = [0; program_session::LINE];
    let mut out = [0; program_pieces::LARGE];
    manager::fresh(&mut p, SIZE, HEAP);
    program_session::answer_all(&rt, &mut p, &mut chunk, &mut line, &mut out);
}

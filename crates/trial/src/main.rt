// The trial program: answers each line of standard input.
#![tactic(auto)]

fn main(rt: HostRuntime) {
    let mut chunk = [0; program_pieces::LARGE];
    let mut line = [0; program_trial::LINE];
    let mut out = [0; program_trial::ANSWER];
    program_trial::answer_all(&rt, &mut chunk, &mut line, &mut out);
}

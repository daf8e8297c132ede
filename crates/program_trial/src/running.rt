ghost use Rattle.std.specs.Prelude.{◌≤◌, length, IfOk};

use crate::{telling, trying};
use program_pieces::{Stopped, Unwritten};

// Answers a line, which asks for an error text or for a call: puts its answer at the start of the output's room, and answers how long it is.
fn answer_line(line: &[u8], out: &mut [u8]) -> usize {
    if program_fields::is_asked(line) {
        return telling::answer_error(line, out);
    }
    trying::answer_call(line, out)
}

// Answers a line, and writes its answer out.
fn answer(rt: &HostRuntime, line: &[u8], out: &mut [u8]) -> Result<(), Unwritten> {
    let used = answer_line(line, out);
    let text = out.get(..used).ok_or(Unwritten)?;
    program_pieces::write_out(rt, text)
}

// Takes a character of the input: a line feed has the line answered, any other goes into it. Answers how many are in the line then.
fn take(
    rt: &HostRuntime,
    character: u8,
    kept: usize,
    line: &mut [u8],
    out: &mut [u8],
) -> Result<usize, Unwritten>
    requires { kept ≤ length line.old }
    ensures { IfOk result (λ filled. filled ≤ length line.old) }
{
    if character != b'\n' {
        return Ok(program_writing::write_character(line, kept, character));
    }
    answer(rt, &line[..kept], out)?;
    Ok(0)
}

// Takes the characters of a chunk.
fn take_all(
    rt: &HostRuntime,
    chunk: &[u8],
    before: usize,
    line: &mut [u8],
    out: &mut [u8],
) -> Result<usize, Unwritten>
    requires { before ≤ length line.old }
    ensures { IfOk result (λ filled. filled ≤ length line.old) }
{
    let mut kept = before;
    for character in chunk {
        kept = take(rt, *character, kept, line, out)?;
    }
    Ok(kept)
}

// The end of input: answers what stands behind the last line feed.
fn finish(rt: &HostRuntime, kept: usize, line: &[u8], out: &mut [u8]) -> Result<(), Unwritten>
    requires { kept ≤ length line.now }
{
    if kept == 0 {
        return Ok(());
    }
    answer(rt, &line[..kept], out)
}

// Answers each line of standard input, until a read or a write fails. There are more turns than any run uses up.
fn answer_each(
    rt: &HostRuntime,
    chunk: &mut [u8],
    line: &mut [u8],
    out: &mut [u8],
) -> Result<(), Stopped> {
    let mut kept = 0;
    for _ in 0..u64::MAX {
        let got = program_pieces::read_in(rt, chunk)?;
        if got == 0 {
            break;
        }
        kept = take_all(rt, &chunk[..got], kept, line, out)?;
    }
    Ok(finish(rt, kept, line, out)?)
}

// Answers each line of standard input, in the rooms that are lent, and says so where a read or a write fails.
pub fn answer_all(rt: &HostRuntime, chunk: &mut [u8], line: &mut [u8], out: &mut [u8]) {
    if let Err(stopped) = answer_each(rt, chunk, line, out) {
        program_pieces::say(rt, "trial", stopped);
    }
}

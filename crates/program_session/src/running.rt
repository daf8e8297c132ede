ghost use Rattle.std.specs.Prelude.{◌≡◌, ◌+◌, ◌≤◌, ◌++◌, length, take};
ghost use Rattle.program_session.specs.Session.{first_picture};
ghost use Rattle.program_session.specs.Pieces.{with_line};
ghost use Rattle.program_session.specs.Rooms.{longest_answer, counted, Roomy, Answered, Taken, TakenAll, Ended, Known, Given, Reached};

use crate::Progress;
use program_pieces::{Stopped, Unwritten};
use program_replies::Answer;

// The most characters that an answer has: a line of 41 for each position.
const LONGEST_ANSWER: usize = 41 * picture::JOBS;

// How many registers a trap's line has.
const REGISTERS: usize = 8;

// Answers a line, behind what is used of the output's room, and answers how much is used then.
fn answer_line(p: &mut [u32], line: &[u8], out: &mut [u8], used: usize) -> usize
    requires { used + longest_answer ≤ length out.old }
    ensures { Answered line.now p.old p.new out.old used out.new result }
{
    let mut registers = [0; REGISTERS];
    match program_replies::answer_frame(p, line, &mut registers) {
        Answer::Longwords(count) => program_writing::write_answer(out, used, &registers[..count]),
        Answer::Report(top) => program_reports::write_report(p, top, out, used),
    }
}

// Answers the line that a part of a chunk ends, straight from the chunk where nothing of it is kept.
fn answer_part(
    p: &mut [u32],
    part: &[u8],
    kept: usize,
    line: &mut [u8],
    out: &mut [u8],
    used: usize,
) -> usize
    requires kept_in_bounds { kept ≤ length line.old }
    requires roomy { Roomy line.old out.old }
    requires longest_answer_in_bounds { used + longest_answer ≤ length out.old }
    ensures { Answered (take kept line.old ++ part.now) p.old p.new out.old used out.new result }
{
    if kept == 0 {
        return answer_line(p, part, out, used);
    }
    let whole = program_lines::keep(part, kept, line);
    answer_line(p, &line[..whole], out, used)
}

// Answers the lines that end in a chunk, up to its end, where what stands behind the last line feed is kept, or until little room is left for answers.
// How far a line goes only `line_end` finds, and the walk may stop between two lines, so it is a `loop`.
fn take_lines(p: &mut [u32], chunk: &[u8], kept: usize, line: &mut [u8], out: &mut [u8]) -> Progress
    requires kept_in_bounds { kept ≤ length line.old }
    requires roomy { Roomy line.old out.old }
    ensures { Taken (with_line p.old (take kept line.old)) chunk.now result.taken p.new line.new result.kept out.new result.used }
{
    let mut filled = kept;
    let mut used = 0;
    let mut start = 0;
    loop {
        let end = program_lines::line_end(chunk, start);
        if end == chunk.len() {
            break;
        }
        used = answer_part(p, &chunk[start..end], filled, line, out, used);
        filled = 0;
        start = end + 1;
        if out.len() - used < LONGEST_ANSWER {
            return Progress {
                taken: start,
                kept: 0,
                used,
            };
        }
    }
    Progress {
        taken: chunk.len(),
        kept: program_lines::keep(&chunk[start..], filled, line),
        used,
    }
}

// Writes out a piece: the text that a piece of input gives after the input before it. It is the next of the output behind the characters that are written already.
fn write_piece(rt: &HostRuntime, text: &[u8], written: &mut u64) -> Result<(), Unwritten>
    requires { Given text.now written.old }
    ensures { written.new ≡ counted (written.old + length text.now) }
{
    *written = written.wrapping_add(text.len() as u64);
    program_pieces::write_out(rt, text)
}

// Takes a chunk of the input, and writes out what it gives, in as many pieces as the output's room asks for.
fn take_all(
    rt: &HostRuntime,
    p: &mut [u32],
    chunk: &[u8],
    kept: usize,
    line: &mut [u8],
    out: &mut [u8],
    written: &mut u64,
) -> Result<usize, Unwritten>
    requires kept_in_bounds { kept ≤ length line.old }
    requires roomy { Roomy line.old out.old }
    requires known { Known p.old (take kept line.old) written.old }
    ensures { TakenAll (with_line p.old (take kept line.old)) chunk.now p.new line.new written.old written.new result }
{
    let mut filled = kept;
    let mut start = 0;
    // How much of the chunk a turn takes only `take_lines` finds, so no iterator gives its pieces.
    while start < chunk.len() {
        let progress = take_lines(p, &chunk[start..], filled, line, out);
        write_piece(rt, &out[..progress.used], written)?;
        filled = progress.kept;
        start += progress.taken;
    }
    Ok(filled)
}

// Answers what stands behind the last line feed, at the start of the output's room, and answers how long the answer is.
fn answer_last(p: &mut [u32], kept: usize, line: &[u8], out: &mut [u8]) -> usize
    requires kept_in_bounds { kept ≤ length line.now }
    requires roomy { Roomy line.now out.old }
    ensures { Ended (with_line p.old (take kept line.now)) p.new out.new result }
{
    if kept == 0 {
        return 0;
    }
    answer_line(p, &line[..kept], out, 0)
}

// The end of input: what it gives is written out.
fn finish(
    rt: &HostRuntime,
    p: &mut [u32],
    kept: usize,
    line: &[u8],
    out: &mut [u8],
    written: &mut u64,
) -> Result<(), Unwritten>
    requires kept_in_bounds { kept ≤ length line.now }
    requires roomy { Roomy line.now out.old }
    requires known { Known p.old (take kept line.now) written.old }
    ensures { Reached p.new }
{
    let used = answer_last(p, kept, line, out);
    write_piece(rt, &out[..used], written)
}

// Answers each line of standard input, until a read or a write fails. There are more turns than any run uses up.
fn answer_each(
    rt: &HostRuntime,
    p: &mut [u32],
    chunk: &mut [u8],
    line: &mut [u8],
    out: &mut [u8],
) -> Result<(), Stopped>
    requires p_value { p.old ≡ first_picture }
    requires roomy { Roomy line.old out.old }
    ensures { Reached p.new }
{
    let mut kept = 0;
    let mut written = 0;
    for _ in 0..u64::MAX {
        let got = program_pieces::read_in(rt, chunk)?;
        if got == 0 {
            break;
        }
        kept = take_all(rt, p, &chunk[..got], kept, line, out, &mut written)?;
    }
    Ok(finish(rt, p, kept, line, out, &mut written)?)
}

// Answers each line of standard input, in the rooms that are lent, and says so where a read or a write fails.
pub fn answer_all(
    rt: &HostRuntime,
    p: &mut [u32],
    chunk: &mut [u8],
    line: &mut [u8],
    out: &mut [u8],
)
    requires p_value { p.old ≡ first_picture }
    requires roomy { Roomy line.old out.old }
    ensures { Reached p.new }
{
    if let Err(stopped) = answer_each(rt, p, chunk, line, out) {
        program_pieces::say(rt, "session", stopped);
    }
}

// What a line of a session comes to.
#![tactic(auto)]

ghost use Rattle.std.specs.Prelude.{◌≡◌, List, ℕ, length};
ghost use Rattle.program_lines.specs.Frames.{bad, picks, ticks, frame};
ghost use Rattle.program_replies.specs.Reply.{reply, Replied, Comes};

use program_lines::Line;

// What a line comes to: so many longwords of an answer of one line, or the report of a tree.
#[derive(Clone, Copy)]
pub enum Answer {
    Longwords(usize),
    Report(u32),
}

// The most bytes that a name has: two digits each behind a trap's 66.
const LONGEST_NAME: usize = 223;

// A bad line gives its key alone, whatever the picture.
fn refuse(registers: &mut [u32]) -> usize
    requires { 8 ≡ length registers.old }
    ensures { (q : List ℕ) → Replied (reply bad q) result q registers.old registers.new }
{
    registers[0] = words::bits_of(picture::BAD_PARAMETER);
    1
}

// A pick gives its number and its key.
fn pick(p: &mut [u32], registers: &mut [u32]) -> usize
    requires { 8 ≡ length registers.old }
    ensures { Replied (reply picks p.old) result p.new registers.old registers.new }
{
    let picked = manager::pick(p);
    registers[0] = picked.number;
    registers[1] = words::bits_of(picked.key);
    2
}

// A tick gives its key.
fn tick(p: &mut [u32], registers: &mut [u32]) -> usize
    requires { 8 ≡ length registers.old }
    ensures { Replied (reply ticks p.old) result p.new registers.old registers.new }
{
    let key = manager::tick(p);
    registers[0] = words::bits_of(key);
    1
}

// Does what a line asks for. A reply of one line stands in the registers' room.
pub fn answer_frame(p: &mut [u32], line: &[u8], registers: &mut [u32]) -> Answer
    requires { 8 ≡ length registers.old }
    ensures { Comes (frame line.now) p.old result p.new registers.old registers.new }
{
    let mut name = [0; LONGEST_NAME];
    match program_lines::read_line(line, registers, &mut name) {
        None => Answer::Longwords(refuse(registers)),
        Some(Line::Pick) => Answer::Longwords(pick(p, registers)),
        Some(Line::Tick) => Answer::Longwords(tick(p, registers)),
        Some(Line::Report(top)) => Answer::Report(top),
        Some(Line::Trap { trap, count }) => {
            manager::call(p, trap, registers, &name[..count]);
            Answer::Longwords(calls::REGISTERS)
        }
    }
}

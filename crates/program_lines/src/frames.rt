ghost use Rattle.std.specs.Prelude.{◌≡◌, true, None, Some, if◌then◌else◌, ◌==◌, ◌≤◌, length};
ghost use Rattle.program_digits.specs.Digits.{digits, number};
ghost use Rattle.program_lines.specs.Frames.{frame, called, trapped, reported, kind_of, Told};

use crate::Line;
use program_digits::{are_digits, number_at, read_numbers};

// The most characters that a line may have.
const LONGEST: usize = 512;

// A trap's number and its eight registers, in digits.
const TRAP: usize = 66;

// F2 and the top's number, in digits.
const REPORT: usize = 10;

// Reads a trap by its number from a line of digits: its registers, and the name's bytes of trap 2.
fn read_trap(trap: u32, line: &[u8], registers: &mut [u32], name: &mut [u8]) -> Option<Line>
    requires { digits line.now 0 (length line.now) ≡ true }
    ensures { Told (trapped trap line.now) result registers.old name.old registers.new name.new }
{
    if line.len() < TRAP {
        return None;
    }
    if trap == 2 {
        let count = (line.len() - TRAP) / 2;
        read_numbers(line, 2, 8, registers);
        read_numbers(line, TRAP, count, name);
        return Some(Line::Trap { trap, count });
    }
    if line.len() != TRAP {
        return None;
    }
    read_numbers(line, 2, 8, registers);
    Some(Line::Trap { trap, count: 0 })
}

// Reads a report from a line of digits that begins with F2: the top's number.
fn read_report(line: &[u8]) -> Option<Line>
    requires { digits line.now 0 (length line.now) ≡ true }
    ensures { result ≡ kind_of (reported line.now) }
{
    if line.len() == REPORT {
        Some(Line::Report(number_at(line, 2, 8)))
    } else {
        None
    }
}

// Reads a line that has nothing behind its first two digits, which ask for `asked`.
fn read_alone(line: &[u8], asked: Line) -> Option<Line>
    ensures { result ≡ (if length line.now == 2 then Some asked else None) }
{
    (line.len() == 2).then_some(asked)
}

// Reads a line of digits by its first two: what it asks for, its registers and its name.
fn read_call(line: &[u8], registers: &mut [u32], name: &mut [u8]) -> Option<Line>
    requires two { 2 ≤ length line.now }
    requires good { digits line.now 0 (length line.now) ≡ true }
    ensures { Told (called (number line.now 0 2) line.now) result registers.old name.old registers.new name.new }
{
    match number_at(line, 0, 2) {
        0xF0 => read_alone(line, Line::Pick),
        0xF1 => read_alone(line, Line::Tick),
        0xF2 => read_report(line),
        trap => read_trap(trap, line, registers, name),
    }
}

// Reads a line: what it asks for, its registers and its name; nothing of a bad one.
pub fn read_line(line: &[u8], registers: &mut [u32], name: &mut [u8]) -> Option<Line>
    ensures { Told (frame line.now) result registers.old name.old registers.new name.new }
{
    if line.is_empty() || LONGEST < line.len() || line.len() % 2 == 1 {
        return None;
    }
    if !are_digits(line, 0, line.len()) {
        return None;
    }
    read_call(line, registers, name)
}

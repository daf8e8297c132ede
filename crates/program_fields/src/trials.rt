ghost use Rattle.std.specs.Prelude.{◌≤◌, ◌+◌, IfSome, length};
ghost use Rattle.program_fields.specs.Within.{Fitting};

use crate::{Call, LONGEST_LINE, Trial, Wanted, asking};

// A call field is two digits and at most 1,000 bytes of name.
const LONGEST_CALL: usize = 2002;

// A longword stands at most 16,384 times in a row.
const MOST_TIMES: u32 = 0x4000;

// A report is lent at most 64 lines.
const MOST_LINES: u32 = 64;

// A fresh picture: its size and its heap, eight digits each.
fn fresh_of(field: &[u8]) -> Option<Wanted> {
    if field.len() != 18 {
        return None;
    }
    let size = program_digits::read_number(field, 2, 8)?;
    let heap = program_digits::read_number(field, 10, 8)?;
    Some(Wanted::Call(Call::Fresh { size, heap }))
}

// A trap and its name: digits in pairs.
fn trap_of(trap: u32, field: &[u8]) -> Option<Wanted> {
    if LONGEST_CALL < field.len() || field.len() % 2 != 0 {
        return None;
    }
    program_digits::are_digits(field, 0, field.len()).then_some(Wanted::Call(Call::Trap(trap)))
}

// What a call field asks for. A field of an error text, FE, is none of them.
fn call_of(field: &[u8]) -> Option<Wanted> {
    let first = program_digits::read_number(field, 0, 2)?;
    match (first, field.len()) {
        (0..0xF0, _) => trap_of(first, field),
        (0xFF, _) => fresh_of(field),
        (0xF0, 2) => Some(Wanted::Call(Call::Pick)),
        (0xF1, 2) => Some(Wanted::Call(Call::Tick)),
        (0xF2, 2) => Some(Wanted::Report),
        _ => None,
    }
}

// Reads the bytes behind a call field's first two digits, and answers how many there are, none where they are no digits or too many: a trial without a
// name is one with a name of no bytes.
pub fn read_name(field: &[u8], name: &mut [u8]) -> usize
    ensures { result ≤ length name.old }
{
    if field.len() < 2 {
        return 0;
    }
    let count = (field.len() - 2) / 2;
    if name.len() < count || !program_digits::are_digits(field, 2, 2 * count) {
        return 0;
    }
    program_digits::read_numbers(field, 2, count, name);
    count
}

// How often the longword whose digits end at a place stands in a row: once, or as often as an `x` and four digits say.
fn times_at(field: &[u8], place: usize) -> Option<usize> {
    let Some(b'x') = field.get(place) else {
        return Some(1);
    };
    let times = program_digits::read_number(field, place + 1, 4)?;
    (1 <= times && times <= MOST_TIMES).then_some(times as usize)
}

// How many characters a longword at a place takes: its eight digits, and `x` with four digits where that follows.
fn width_at(field: &[u8], place: usize) -> usize
    ensures { 8 ≤ result }
{
    match field.get(place) {
        Some(b'x') => 13,
        _ => 8,
    }
}

// Reads the longwords of a picture field, and answers how many there are. A longword takes 8 characters or 13, as it says itself, so no `for` goes over them.
fn read_longwords(p: &mut [u32], field: &[u8]) -> Option<usize>
    ensures { IfSome result (λ n. n ≤ length p.old) }
{
    let mut place = 0;
    let mut count = 0;
    while place < field.len() {
        let longword = program_digits::read_number(field, place, 8)?;
        let left = field.len() - place;
        if left < 8 {
            return None;
        }
        let times = times_at(field, place + 8)?;
        let width = width_at(field, place + 8);
        if p.len() - count < times || left < width {
            return None;
        }
        p[count..count + times].fill(longword);
        count += times;
        place += width;
    }
    Some(count)
}

// Reads a picture field, and answers how many longwords there are.
fn read_picture(p: &mut [u32], field: &[u8]) -> Option<usize>
    ensures { IfSome result (λ n. n ≤ length p.old) }
{
    if asking::is_none(field) {
        return Some(0);
    }
    if field.is_empty() {
        return None;
    }
    read_longwords(p, field)
}

// The trial of a report over a picture of so many longwords: its registers are two, the top's number and how many lines are lent.
fn report_of(registers: &[u32], size: usize) -> Option<Trial>
    ensures { IfSome result (λ trial. Fitting trial 0 0 size) }
{
    let [top, lent] = *registers else {
        return None;
    };
    if MOST_LINES < lent {
        return None;
    }
    Some(Trial::Report {
        top,
        lent: lent as usize,
        size,
    })
}

// The trial of what a call field of so many characters asks for, over its registers and a picture of so many longwords.
fn trial_of(wanted: Wanted, characters: usize, registers: &[u32], size: usize) -> Option<Trial>
    ensures { IfSome result (λ trial. Fitting trial characters (length registers.now) size) }
{
    match wanted {
        Wanted::Call(call) => Some(Trial::Call {
            call,
            characters,
            registers: registers.len(),
            size,
        }),
        Wanted::Report => report_of(registers, size),
    }
}

// Reads a line: what it asks for, its registers and its picture. A name stays in the call field.
pub fn read_trial(p: &mut [u32], line: &[u8], registers: &mut [u32]) -> Option<Trial>
    ensures { IfSome result (λ trial. Fitting trial (length line.now) (length registers.old) (length p.old)) }
{
    if LONGEST_LINE < line.len() {
        return None;
    }
    let (field, rest) = asking::cut(line)?;
    let wanted = call_of(field)?;
    let (numbers, picture) = asking::cut(rest)?;
    let count = asking::read_field(numbers, registers)?;
    let size = read_picture(p, picture)?;
    trial_of(wanted, field.len(), &registers[..count], size)
}

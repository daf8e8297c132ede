ghost use Rattle.std.specs.Prelude.{◌≡◌, ◌≤◌, ◌<◌, ◌*◌, true, None, Some, MatchOption, IfSome, length};
ghost use Rattle.std.specs.List.{before_first, after_first};
ghost use Rattle.program_digits.specs.Digits.{digits};
ghost use Rattle.program_fields.specs.Within.{TextsFitting};
ghost use Rattle.program_fields.specs.Fields.{is_blank, blank, none, asks, key, count, spelled_in, Told};

use crate::{Asked, LONGEST_LINE};
use program_digits::Spelled;

// The first two digits of a line that asks for an error text.
const ERROR: u32 = 0xFE;

// The place of the first blank.
fn blank_in(text: &[u8]) -> Option<usize>
    ensures { result ≡ blank text.now }
{
    text.iter().position(|character| *character == b' ')
}

// What stands before the first blank, and what stands behind it.
pub fn cut(text: &[u8]) -> Option<(&[u8], &[u8])>
    ensures { MatchOption result (blank text.now ≡ None)
        (λ x. (x.0.now ≡ before_first is_blank text.now) × (x.1.now ≡ after_first is_blank text.now)) }
{
    let place = blank_in(text)?;
    Some((&text[..place], &text[place + 1..]))
}

// The field says that there is nothing.
pub fn is_none(field: &[u8]) -> bool
    ensures { result ≡ none field.now }
{
    field == b"-".as_slice()
}

// The line begins as one that asks for an error text.
pub fn is_asked(line: &[u8]) -> bool
    ensures { result ≡ asks line.now }
{
    program_digits::read_number(line, 0, 2) == Some(ERROR)
}

// The key's bits of a call field, eight digits behind the first two, or nothing where the field is no such.
fn key_of(field: &[u8]) -> Option<u32>
    ensures { result ≡ key field.now }
{
    if field.len() == 10 && is_asked(field) {
        program_digits::read_number(field, 2, 8)
    } else {
        None
    }
}

// How many numbers of so many digits each a field holds, at least one and at most `most`.
fn count_in(field: &[u8], width: usize, most: usize) -> Option<usize>
    requires { 0 < width }
    ensures value { result ≡ count width most field.now }
    ensures within { IfSome result (λ n. n ≤ most) }
    ensures good { IfSome result (λ n. digits field.now 0 (width * n) ≡ true) }
{
    let count = field.len() / width;
    if count == 0 || most < count || field.len() % width != 0 {
        return None;
    }
    if !program_digits::are_digits(field, 0, field.len()) {
        return None;
    }
    Some(count)
}

// Reads a field of numbers, and answers how many there are.
pub fn read_field<N: Spelled>(field: &[u8], room: &mut [N]) -> Option<usize>
    ensures within { IfSome result (λ n. n ≤ length room.old) }
    ensures told { Told N.value (spelled_in N.WIDTH (length room.old) field.now) result room.old room.new }
{
    if is_none(field) {
        return Some(0);
    }
    let count = count_in(field, N::WIDTH, room.len())?;
    program_digits::read_numbers(field, 0, count, room);
    Some(count)
}

// Reads a line: its key and its two texts.
pub fn read_asked(line: &[u8], system: &mut [u8], driver: &mut [u8]) -> Option<Asked>
    ensures { IfSome result (λ asked. TextsFitting asked (length system.old) (length driver.old)) }
{
    if LONGEST_LINE < line.len() {
        return None;
    }
    let (field, texts) = cut(line)?;
    let key = key_of(field)?;
    let (first, last) = cut(texts)?;
    let system = read_field(first, system)?;
    let driver = read_field(last, driver)?;
    Some(Asked {
        key,
        system,
        driver,
    })
}

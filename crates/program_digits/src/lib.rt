// Hexadecimal as it is read from a lent text: digits, numbers, words and bytes.
#![tactic(auto)]

ghost use Rattle.std.specs.Prelude.{◌≡◌, true, ◌+◌, ◌-◌, ◌*◌, ◌^◌, ◌≤◌, ◌<◌, length, map, ℕ, is_some, unwrap_or};
ghost use Rattle.std.specs.List.{list_all};
ghost use Rattle.std.proofs.Common.{rules};
ghost use Rattle.std.proofs.lemmas.List.Edits.{sets};
ghost use Rattle.program_digits.specs.Digits.{digit, digits, number, numbers, read};

// The character is a digit: 0 to 9, A to F, a to f.
#[tactic(auto, using(crate::proofs::Reader::digit_ranges))]
fn is_digit(character: u8) -> bool
    ensures { result ≡ is_some (digit character) }
{
    character.is_ascii_hexdigit()
}

// The value of a digit: its last four bits, and 9 more for a letter.
fn worth_of(character: u8) -> u32
    requires { is_some (digit character) ≡ true }
    ensures value { result ≡ unwrap_or (digit character) 0 }
    ensures small { result < 16 }
{
    u32::from(character % 16 + 9 * (character / 64))
}

// The eight characters from a place on are digits.
fn are_eight(text: &[u8], i: usize) -> bool
    requires { i + 8 ≤ length text.now }
    ensures { result ≡ digits text.now i 8 }
{
    (is_digit(text[i]) & is_digit(text[i + 1]) & is_digit(text[i + 2]) & is_digit(text[i + 3]))
        & (is_digit(text[i + 4])
            & is_digit(text[i + 5])
            & is_digit(text[i + 6])
            & is_digit(text[i + 7]))
}

// How many characters from a place on are digits, eight at a time: those behind them decide whether all are.
// With `all`, which tests one at a time, a session of bad lines takes a tenth more instructions.
fn digits_by_eight(text: &[u8], place: usize, count: usize) -> usize
    requires { place + count ≤ length text.now }
    ensures bound { result ≤ count }
    ensures left { digits text.now place count ≡ digits text.now (place + result) (count - result) }
{
    let mut k = 0;
    while 8 <= count - k {
        if !are_eight(text, place + k) {
            return k;
        }
        k += 8;
    }
    k
}

// Each character is a digit.
fn are_all_digits(text: &[u8]) -> bool
    ensures { result ≡ list_all (λ c. is_some (digit c)) text.now }
{
    text.iter().all(|character| is_digit(*character))
}

// The `count` characters from a place on are digits.
pub fn are_digits(text: &[u8], place: usize, count: usize) -> bool
    ensures { result ≡ digits text.now place count }
{
    if count == 0 {
        return true;
    }
    if text.len() < count {
        return false;
    }
    if text.len() - count < place {
        return false;
    }
    let passed = digits_by_eight(text, place, count);
    are_all_digits(&text[place + passed..place + count])
}

// The number that `count` digits from a place on say.
pub fn number_at(text: &[u8], place: usize, count: usize) -> u32
    requires few { count ≤ 8 }
    requires good { digits text.now place count ≡ true }
    ensures value { result ≡ number text.now place count }
    ensures small { result < 16 ^ count }
{
    let mut value = 0;
    for k in 0..count {
        value = value * 16 + worth_of(text[place + k]);
    }
    value
}

// The number of `count` digits at a place, or nothing where one of them is no digit or they are more than eight.
pub fn read_number(text: &[u8], place: usize, count: usize) -> Option<u32>
    ensures { result ≡ read text.now place count }
{
    if count <= 8 && are_digits(text, place, count) {
        Some(number_at(text, place, count))
    } else {
        None
    }
}

// A number that a text holds in digits: a longword in eight, a byte in two.
pub trait Spelled: Copy {
    // How many digits it has, and the value of the number that they say.
    ghost WIDTH: { ℕ };

    ghost value: { ℕ → Self };

    const WIDTH: usize;

    fn of(number: u32) -> Self
        requires { number < 16 ^ WIDTH }
        ensures { result ≡ value number };

    ghost few: { (0 < WIDTH) × (WIDTH ≤ 8) };
}

impl Spelled for u32 {
    ghost WIDTH = { 8 };

    ghost value = { λ n. n };

    const WIDTH: usize = 8;

    ghost few = { Prim.search rules };

    fn of(number: u32) -> u32 {
        number
    }
}

impl Spelled for u8 {
    ghost WIDTH = { 2 };

    ghost value = { λ n. n };

    const WIDTH: usize = 2;

    ghost few = { Prim.search rules };

    fn of(number: u32) -> u8 {
        number as u8
    }
}

// The numbers, with the first `count` of them those that stand in the text from a place on, in digits.
pub fn read_numbers<N: Spelled>(text: &[u8], place: usize, count: usize, room: &mut [N])
    requires { digits text.now place (N.WIDTH * count) ≡ true }
    ensures { room.new ≡ sets room.old 0 (map N.value (numbers text.now place N.WIDTH count)) }
{
    for k in 0..count.min(room.len()) {
        room[k] = N::of(number_at(text, place + N::WIDTH * k, N::WIDTH));
    }
}

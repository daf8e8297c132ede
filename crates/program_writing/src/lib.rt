// Hexadecimal as it is written into a lent text: characters, numbers, words and answers.
#![tactic(auto)]

ghost use Rattle.std.specs.Prelude.{◌≡◌, ◌+◌, ◌*◌, ◌≤◌, ◌<◌, leb, length, set};
ghost use Rattle.program_writing.specs.Texts.{capital, past, written};
ghost use Rattle.program_writing.specs.Texts.{written_words, with_number, with_words, with_answer};

// The capital character of a digit.
fn capital_of(digit: u32) -> u8
    requires { digit < 16 }
    ensures { result ≡ capital digit }
{
    if digit < 10 {
        (digit + 48) as u8
    } else {
        (digit + 55) as u8
    }
}

// `count` characters from a place on lie within a length.
fn is_room(length: usize, place: usize, count: usize) -> bool
    ensures { result ≡ leb (place + count) length }
{
    if length < count {
        return false;
    }
    place <= length - count
}

// Puts a character at a place, where the text has that place, and answers the place behind it.
pub fn write_character(text: &mut [u8], place: usize, character: u8) -> usize
    ensures value { result ≡ past text.old place 1 }
    ensures text_after { text.new ≡ set text.old place character }
{
    if place < text.len() {
        text[place] = character;
        return place + 1;
    }
    place
}

// Puts the last `count` digits of a number at a place.
fn write_digits(text: &mut [u8], place: usize, count: usize, number: u32)
    requires { place + count ≤ length text.old }
    ensures { text.new ≡ written text.old place count number }
{
    let mut rest = number;
    for k in (0..count).rev() {
        text[place + k] = capital_of(rest % 16);
        rest /= 16;
    }
}

// Puts the last `count` digits of a number at a place, where they fit, and answers the place behind them.
pub fn write_number(text: &mut [u8], place: usize, count: usize, number: u32) -> usize
    ensures value { result ≡ past text.old place count }
    ensures text_after { text.new ≡ with_number text.old place count number }
{
    if !is_room(text.len(), place, count) {
        return place;
    }
    write_digits(text, place, count, number);
    place + count
}

// Puts words at a place, eight digits each.
fn write_each(text: &mut [u8], place: usize, words: &[u32])
    requires { place + 8 * length words.now ≤ length text.old }
    ensures { text.new ≡ written_words text.old place words.now }
{
    let mut i = place;
    for word in words {
        write_digits(text, i, 8, *word);
        i += 8;
    }
}

// Puts words at a place, eight digits each, where they fit, and answers the place behind them.
pub fn write_words(text: &mut [u8], place: usize, words: &[u32]) -> usize
    ensures value { result ≡ past text.old place (8 * length words.now) }
    ensures text_after { text.new ≡ with_words text.old place words.now }
{
    if text.len() / 8 < words.len() {
        return place;
    }
    let count = 8 * words.len();
    if !is_room(text.len(), place, count) {
        return place;
    }
    write_each(text, place, words);
    place + count
}

// Puts an answer at a place, its words and a line feed, and answers the place behind it.
pub fn write_answer(text: &mut [u8], place: usize, words: &[u32]) -> usize
    ensures value { result ≡ past text.old (past text.old place (8 * length words.now)) 1 }
    ensures text_after { text.new ≡ with_answer text.old place words.now }
{
    let end = write_words(text, place, words);
    write_character(text, end, 10)
}

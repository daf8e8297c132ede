ghost use Rattle.std.specs.Prelude.{◌≡◌, ◌+◌, ◌≤◌, ◌<◌, min, ◌==◌, eqb, ltb, get_or, length};
ghost use Rattle.std.specs.List.{position};
ghost use Rattle.std.proofs.lemmas.List.Edits.{sets};
ghost use Rattle.program_lines.specs.Feeds.{line_end};

// A line feed stands at a place.
fn is_feed(text: &[u8], i: usize) -> bool
    requires { i < length text.now }
    ensures { result ≡ eqb (get_or text.now i 0) 10 }
{
    text[i] == b'\n'
}

// A line feed is among the eight characters from a place on.
fn has_feed(text: &[u8], i: usize) -> bool
    requires { i + 8 ≤ length text.now }
    ensures { result ≡ ltb (line_end text.now i) (i + 8) }
{
    is_feed(text, i)
        | is_feed(text, i + 1)
        | is_feed(text, i + 2)
        | is_feed(text, i + 3)
        | is_feed(text, i + 4)
        | is_feed(text, i + 5)
        | is_feed(text, i + 6)
        | is_feed(text, i + 7)
}

// Skips characters from a place on, eight at a time, as long as no line feed is among them.
// With `position` alone, which tests one at a time, a session of bad lines takes a third more instructions.
fn skip(text: &[u8], from: usize) -> usize
    requires { from ≤ length text.now }
    ensures { (result ≤ length text.now) × (line_end text.now from ≡ line_end text.now result) }
{
    let mut i = from;
    while 8 <= text.len() - i {
        if has_feed(text, i) {
            return i;
        }
        i += 8;
    }
    i
}

// Where the first line feed stands.
fn feed_in(text: &[u8]) -> Option<usize>
    ensures { result ≡ position (λ c. c == 10) text.now }
{
    text.iter().position(|character| *character == b'\n')
}

// The place of the first line feed from a place on, or the text's length where there is none: `line_end`, by which the pieces of a session are told, has
// it so, and a part of a line reaches as far either way.
pub fn line_end(text: &[u8], from: usize) -> usize
    ensures value { result ≡ line_end text.now from }
    ensures lower_bound { (from ≤ result) × (from ≤ length text.now → result ≤ length text.now) }
{
    if text.len() <= from {
        return from;
    }
    let i = skip(text, from);
    i + feed_in(&text[i..]).unwrap_or(text.len() - i)
}

// Puts a part of a line behind what is there of it, as far as the line has room, and answers how far it is filled.
pub fn keep(part: &[u8], place: usize, line: &mut [u8]) -> usize
    requires { place ≤ length line.old }
    ensures value { (result ≡ min (length line.old) (place + length part.now)) × (result ≤ length line.old) }
    ensures line_after { line.new ≡ sets line.old place part.now }
{
    let end = line.len().min(place + part.len());
    line[place..end].copy_from_slice(&part[..end - place]);
    end
}

// The text of an error: a part of one of two lent texts.
#![tactic(auto)]

ghost use Rattle.std.specs.Prelude.{◌≡◌, ◌<◌};
ghost use Rattle.errors.specs.Text.{Lies, Answer, string_at, nth_at, spot_of, error_key};

// The system's text has a string for each key from -1 to -21.
const SYSTEM_STRINGS: usize = 21;

// A part of a text: where its characters start, and how many there are.
#[derive(Clone, Copy, Debug, PartialEq, Eq)]
pub struct Part {
    pub start: usize,
    pub count: usize,
}

// Where an error's text stands.
#[derive(Clone, Copy, Debug, PartialEq, Eq)]
pub enum Spot {
    System(Part),
    Driver(Part),
}

// The characters of the string whose length word stands at `at`; none where the text ends before the string does.
pub fn string_at(s: &[u8], at: usize) -> Option<Part>
    ensures { result ≡ string_at s.now at }
{
    let high = *s.get(at)?;
    let low = *s.get(at + 1)?;
    let start = at + 2;
    let count = usize::from(u16::from_be_bytes([high, low]));
    if s.len() - start < count {
        return None;
    }
    Some(Part { start, count })
}

// The place of the length word of string n; none where a string before it is cut.
#[tactic(auto, using(crate::proofs::Laws::nth_cut))]
fn nth_at(s: &[u8], n: usize) -> Option<usize>
    ensures { result ≡ nth_at s.now n }
{
    let mut at: usize = 0;
    for _ in 0..n {
        let part = string_at(s, at)?;
        at = part.start + part.count;
    }
    Some(at)
}

// Where the text of a key stands.
pub fn spot_of(key: i32, system: &[u8], driver: &[u8]) -> Option<Spot>
    ensures { result ≡ spot_of key system.now driver.now }
{
    if key == 0 {
        return None;
    }
    if 0 < key {
        return string_at(driver, key as usize).map(Spot::Driver);
    }
    let n = (!key) as usize;
    if SYSTEM_STRINGS <= n {
        return None;
    }
    let at = nth_at(system, n)?;
    string_at(system, at).map(Spot::System)
}

// The text of a key: a part of one of the two texts lent.
pub fn error_text<'a>(key: i32, system: &'a [u8], driver: &'a [u8]) -> &'a [u8]
    ensures { Answer (spot_of key system.now driver.now) system.entry driver.entry result }
{
    match spot_of(key, system, driver) {
        Some(Spot::System(part)) => &system[part.start..part.start + part.count],
        Some(Spot::Driver(part)) => &driver[part.start..part.start + part.count],
        None => &system[0..0],
    }
}

// The key of the answer: 0, or -7 where there is no such text. A number, as every key that a host is given (docs/DECISIONS.md 27).
#[tactic(auto, unfolding(crate::specs::Text::error_key))]
pub fn error_key(key: i32, system: &[u8], driver: &[u8]) -> i32
    ensures { result ≡ error_key key system.now driver.now }
{
    match spot_of(key, system, driver) {
        Some(_) => picture::DONE,
        None => picture::NOT_FOUND,
    }
}

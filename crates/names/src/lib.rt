// The reader of pipe names.
#![tactic(auto)]

ghost use Rattle.std.specs.Prelude.{◌≡◌, Err, drop};
ghost use Rattle.picture.specs.Answers.{refusal_key};
ghost use Rattle.names.specs.Names.{key_of, byte, pipe, numbered, named};

use picture::Refusal;

// Why a name isn't PIPE_n: it isn't PIPE; it is PIPE_ with no good number; it is bare PIPE.
#[derive(Clone, Copy, Debug, PartialEq, Eq)]
pub enum NameFault {
    Foreign,
    Unnumbered,
    Bare,
}

// The refusal of a name, by its key.
impl From<NameFault> for Refusal {
    ghost from_gives = { λ fault refusal. refusal_key refusal ≡ key_of (Err fault) };

    #[tactic(auto, unfolding(crate::specs::Names::key_of))]
    fn from(fault: NameFault) -> Refusal {
        match fault {
            NameFault::Foreign => Refusal::NotFound,
            NameFault::Unnumbered => Refusal::BadName,
            NameFault::Bare => Refusal::BadParameter,
        }
    }
}

// Where the underscore and the first digit stand, and how many digits a number has at most.
const UNDERSCORE_AT: usize = 4;

const DIGITS_AT: usize = 5;

const MOST_DIGITS: usize = 5;

// The byte at i, 0 past the end.
pub fn byte_at(name: &[u8], i: usize) -> u8
    ensures { result ≡ byte name.now i }
{
    name.get(i).copied().unwrap_or(0)
}

// The name starts with PIPE.
pub fn is_pipe(name: &[u8]) -> bool
    ensures { result ≡ pipe name.now }
{
    UNDERSCORE_AT <= name.len() && name[..UNDERSCORE_AT].eq_ignore_ascii_case(b"PIPE")
}

// The n of PIPE_n, by its digits.
#[tactic(auto, using(crate::proofs::Digits::too_many))]
fn read_digits(digits: &[u8]) -> Result<u32, NameFault>
    ensures { result ≡ numbered digits.now }
{
    if MOST_DIGITS < digits.len() {
        return Err(NameFault::Unnumbered);
    }
    let mut n: u32 = 0;
    for b in digits {
        if !b.is_ascii_digit() {
            return Err(NameFault::Unnumbered);
        }
        n = n * 10 + (*b - b'0') as u32;
    }
    if n < 1 {
        return Err(NameFault::Unnumbered);
    }
    if sound_areas::LONGEST_QUEUE < n as usize {
        return Err(NameFault::Unnumbered);
    }
    Ok(n)
}

// The n of PIPE_n, by what follows PIPE_.
#[tactic(auto, using(crate::proofs::Digits::too_few))]
pub fn read_number(name: &[u8]) -> Result<u32, NameFault>
    ensures { result ≡ numbered (drop 5 name.now) }
{
    if name.len() <= DIGITS_AT {
        return Err(NameFault::Unnumbered);
    }
    read_digits(&name[DIGITS_AT..])
}

// The n of a name PIPE_n.
#[tactic(auto, unfolding(crate::specs::Names::named))]
pub fn read_name(name: &[u8]) -> Result<u32, NameFault>
    ensures { result ≡ named name.now }
{
    if !is_pipe(name) {
        return Err(NameFault::Foreign);
    }
    if name.len() == UNDERSCORE_AT {
        return Err(NameFault::Bare);
    }
    if byte_at(name, UNDERSCORE_AT) != b'_' {
        return Err(NameFault::Foreign);
    }
    read_number(name)
}

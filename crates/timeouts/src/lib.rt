// Timeouts in registers: the low word, read as a signed half.
#![tactic(auto)]

ghost use Rattle.std.specs.Prelude.{◌≡◌};
ghost use Rattle.timeouts.specs.Timeout.{timeout_in, value};

// What a low word says: 0, 1 to 32,767 frames, or -1 for without end.
#[derive(Clone, Copy, Debug, PartialEq, Eq)]
pub enum Timeout {
    Zero,
    Frames(i32),
    Endless,
}

// The timeout in a register; none where its low word says anything else.
#[tactic(auto, unfolding(crate::specs::Timeout::timeout_of))]
pub fn timeout_in(register: u32) -> Option<Timeout>
    ensures { result ≡ timeout_in register }
{
    match words::low_half(register) {
        0 => Some(Timeout::Zero),
        picture::WITHOUT_END => Some(Timeout::Endless),
        frames if 0 < frames => Some(Timeout::Frames(frames)),
        _ => None,
    }
}

// The timeout that a job's record gets.
pub fn value_of(t: Option<Timeout>) -> i32
    ensures { result ≡ value t }
{
    match t {
        Some(Timeout::Frames(frames)) => frames,
        Some(Timeout::Endless) => picture::WITHOUT_END,
        Some(Timeout::Zero) | None => 0,
    }
}

// Lines of trials as they are read: a call on a picture, the report of a tree, or a question for an error's text.
#![tactic(auto)]

mod asking;
mod trials;

pub use asking::{is_asked, read_asked};
pub use trials::{read_name, read_trial};

// A line has at most 300,000 characters.
pub const LONGEST_LINE: usize = 300_000;

// What a line asks: the text of a key, with how many bytes of the system's text and of the driver's there are.
#[derive(Clone, Copy)]
pub struct Asked {
    pub key: u32,
    pub system: usize,
    pub driver: usize,
}

// A call: a trap by its number, a pick, a tick, or a fresh picture of a size and a heap.
#[derive(Clone, Copy)]
pub enum Call {
    Trap(u32),
    Pick,
    Tick,
    Fresh { size: u32, heap: u32 },
}

// What a call field asks for: a call, or the report of a tree.
#[derive(Clone, Copy)]
pub enum Wanted {
    Call(Call),
    Report,
}

// A trial: its call, how many characters the call field has, and how many registers and longwords there are;
// or a report: its top's number, how many lines are lent, and how many longwords there are.
#[derive(Clone, Copy)]
pub enum Trial {
    Call {
        call: Call,
        characters: usize,
        registers: usize,
        size: usize,
    },
    Report {
        top: u32,
        lent: usize,
        size: usize,
    },
}

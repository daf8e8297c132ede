// Trials: one call on any picture and registers a line, and what it answers and changes; or one report of a tree, and the lines that were lent to it.
#![tactic(auto)]

mod report;
mod reporting;
mod room;
mod running;
mod telling;
mod trying;

pub use room::{ANSWER, LINE};
pub use running::answer_all;

// What a call answered: its key's bits, and the number that a pick gave.
#[derive(Clone, Copy)]
pub struct Answer {
    pub key: u32,
    pub number: Option<u32>,
}

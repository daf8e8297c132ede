// A session's lines: what a line says, and where the lines of a text end.
#![tactic(auto)]

mod feeds;
mod frames;

pub use feeds::{keep, line_end};
pub use frames::read_line;

// What a good line of a session asks for: a pick, a tick, the report of the tree of a job by its number, or a trap by its number, with how many bytes of name.
#[derive(Clone, Copy)]
pub enum Line {
    Pick,
    Tick,
    Report(u32),
    Trap { trap: u32, count: usize },
}

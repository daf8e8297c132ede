// A session: a frame of hexadecimal a line, and an answer for each.
#![tactic(auto)]

mod running;

pub use running::answer_all;

// How long the room for a line is: one character more than a good line may have.
pub const LINE: usize = 513;

// How many longwords the picture has.
pub const PICTURE: usize = 1024;

// How far a chunk is taken, how many characters of the line at hand are kept, and how much of the output's room is used.
#[derive(Clone, Copy)]
pub struct Progress {
    pub taken: usize,
    pub kept: usize,
    pub used: usize,
}

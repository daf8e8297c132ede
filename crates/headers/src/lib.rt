// Writing the header of a block.
#![tactic(auto)]

ghost use Rattle.std.specs.Prelude.{◌≡◌};
ghost use Rattle.headers.specs.Header.{header};

use blocks::{FREE, HOLDER, KIND, START};
use words::put;

// What a header says of its block beside the length: its kind, its owner and the start address of a job, else 0.
// The kind is the longword that stands there and no enum, since a header may be written with any.
#[derive(Clone, Copy, Debug, PartialEq, Eq)]
pub struct Block {
    pub kind: u32,
    pub owner: u32,
    pub start: u32,
}

// A block that is free has no owner and no start address.
pub const FREE_BLOCK: Block = Block {
    kind: FREE,
    owner: 0,
    start: 0,
};

// The header of the block at i holds this length and says this of it.
#[tactic(auto, unfolding(crate::specs::Header::header), using(crate::proofs::Header::header_past_the_end))]
pub fn put_header(p: &mut [u32], i: usize, length: u32, block: Block)
    ensures { p.new ≡ header p.old i length block.kind block.owner block.start }
{
    if i < p.len() {
        put(p, i, length);
        put(p, i + KIND, block.kind);
        put(p, i + HOLDER, block.owner);
        put(p, i + START, block.start);
    }
}

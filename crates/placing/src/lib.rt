// Placing a block in an area of a lent picture, from longword base up to e.
// The two ends stay two numbers: the definitions and the laws have them so, and the areas share the longword between them.
#![tactic(auto)]

ghost use Rattle.std.specs.Prelude.{◌≡◌, ◌<◌, ◌≤◌, length};
ghost use Rattle.placing.specs.Place.{fits, chosen, split, placed, longer, longest, Placing};

use blocks::{Blocks, FREE, HEADER, KIND};
use headers::{Block, FREE_BLOCK, put_header};
use words::{clear, word};

// The block at i is free and its length is enough for n bytes.
#[tactic(auto, unfolding(crate::specs::Place::fits))]
pub fn is_fit(p: &[u32], i: usize, n: u64) -> bool
    requires { i < 18446744073709551615 }
    ensures { result ≡ fits p.now n i }
{
    (word(p, i + KIND) == FREE) & (n <= word(p, i) as u64)
}

// The block where n bytes are placed, e for none. Document 01's form is the walk that ends by `break`; with it, as in the definition, the end stands for none.
pub fn choose(p: &[u32], base: usize, e: usize, n: u64) -> usize
    ensures { result ≡ chosen p.now base e n }
{
    let mut at = e;
    for i in Blocks::new(p, base, e) {
        if is_fit(p, i, n) {
            at = i;
            break;
        }
    }
    at
}

// What is left of the block at i after n bytes is a free block.
#[tactic(auto, unfolding(crate::specs::Place::split))]
pub fn split_block(p: &mut [u32], i: usize, n: u32)
    requires { i < length p.old }
    ensures { p.new ≡ split p.old i n }
{
    let size = word(p, i);
    if n < size {
        put_header(p, i + (n / 4) as usize, size - n, FREE_BLOCK);
    }
}

// A block of n bytes stands at the low end of the free block at i, its room cleared.
#[tactic(auto, unfolding(crate::specs::Place::placed), using(crate::proofs::Count::room_count))]
pub fn place_at(p: &mut [u32], i: usize, n: u32, block: Block)
    requires { i < length p.old }
    ensures { p.new ≡ placed p.old i n block.kind block.owner block.start }
{
    split_block(p, i, n);
    put_header(p, i, n, block);
    clear(p, i + HEADER, i + (n / 4) as usize);
}

// A block of n bytes stands in the chosen free block, if there is one.
#[tactic(auto, unfolding(crate::specs::Place::answer, crate::specs::Place::after))]
pub fn place(p: &mut [u32], base: usize, e: usize, n: u64, block: Block) -> Option<usize>
    requires { e ≤ length p.old }
    ensures { Placing p.old base e n block.kind block.owner block.start result p.new }
{
    let at = choose(p, base, e, n);
    if at < e {
        place_at(p, at, n as u32, block);
        return Some(at);
    }
    None
}

// The length of the block at i if it is free and longer than best, else best.
#[tactic(auto, unfolding(crate::specs::Place::longer))]
pub fn longer_of(p: &[u32], best: u32, i: usize) -> u32
    requires { i < 18446744073709551615 }
    ensures { result ≡ longer p.now best i }
{
    let size = word(p, i);
    if (word(p, i + KIND) == FREE) & (best < size) {
        return size;
    }
    best
}

// The length of the longest free block, 0 for none: no block is that short, and `longest`, from which $6 answers, has it so.
pub fn longest_free(p: &[u32], base: usize, e: usize) -> u32
    ensures { result ≡ longest p.now base e }
{
    let mut best = 0;
    for i in Blocks::new(p, base, e) {
        best = longer_of(p, best, i);
    }
    best
}

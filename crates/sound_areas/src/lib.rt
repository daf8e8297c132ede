// Rules of soundness for the blocks of the two areas, a function each.
#![tactic(auto)]

ghost use Rattle.std.specs.Prelude.{◌≡◌, ◌+◌, ◌<◌, ◌≤◌, length};
ghost use Rattle.blocks.specs.Header.{start_field};
ghost use Rattle.sound_areas.specs.Rules.{tiles, untouched, length_whole};
ghost use Rattle.sound_areas.specs.Rules.{free_blank, queue_room};

use blocks::{
    FREE, HOLDER, KIND, QUEUE, QUEUE_COUNT, QUEUE_LENGTH, QUEUE_OLDEST, QUEUE_ZERO, START,
};
use picture::word_at;
use words::word;

pub const LONGEST_QUEUE: usize = 32766;

// A length is a multiple of 16, at least 16.
#[tactic(auto, unfolding(crate::specs::Rules::length_whole))]
pub fn length_whole(p: &[u32], i: usize) -> bool
    requires { i < length p.now }
    ensures { result ≡ length_whole p.now i }
{
    let size = word_at(p, i);
    (size % 16 == 0) & (16 <= size)
}

// A free header is length, 0, 0, 0.
#[tactic(auto, unfolding(crate::specs::Rules::free_blank))]
pub fn free_blank(p: &[u32], i: usize) -> bool
    requires { i + start_field < length p.now }
    ensures { result ≡ free_blank p.now i }
{
    (word_at(p, i + KIND) != FREE) | ((word_at(p, i + HOLDER) == 0) & (word_at(p, i + START) == 0))
}

// A queue's room has its length, index of the oldest byte, count and 0.
#[tactic(auto, unfolding(crate::specs::Rules::queue_room))]
pub fn queue_room(p: &[u32], i: usize) -> bool
    requires { i < 8589934592 }
    ensures { result ≡ queue_room p.now i }
{
    if word(p, i + KIND) != QUEUE {
        return true;
    }
    let n = word(p, i + QUEUE_LENGTH) as usize;
    (1 <= n)
        & ((n <= LONGEST_QUEUE)
            & ((word(p, i) as usize == (32 + n + 15) / 16 * 16)
                & (((word(p, i + QUEUE_OLDEST) as usize) < n)
                    & ((word(p, i + QUEUE_COUNT) as usize <= n) & (word(p, i + QUEUE_ZERO) == 0)))))
}

// The block ends within its area.
#[tactic(auto, unfolding(crate::specs::Rules::tiles))]
pub fn is_within(p: &[u32], e: usize, i: usize) -> bool
    requires { (i ≤ e) × (i < length p.now) }
    ensures { result ≡ tiles p.now e i }
{
    word_at(p, i) as usize / 4 <= e - i
}

// No free block follows a free block.
#[tactic(auto, unfolding(crate::specs::Rules::untouched))]
pub fn is_untouched(p: &[u32], e: usize, i: usize) -> bool
    requires { (i < e) × (e < 8589934592) }
    ensures { result ≡ untouched p.now e i }
{
    let next = blocks::next_block(p, i, e);
    (word(p, i + KIND) != FREE) | ((e <= next) | (word(p, next + KIND) != FREE))
}

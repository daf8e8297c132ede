// The rules of the picture as a whole: its size, its heap, its last tags and who is current.
#![tactic(auto)]

ghost use Rattle.std.specs.Prelude.{◌≡◌, ◌<◌};
ghost use Rattle.sound_whole.specs.Whole.{size_within, heap_within, size_stated, seven_zero, heap_stated};
ghost use Rattle.sound_whole.specs.Whole.{last_within, current_ready, whole_fine};

use picture::Table;
use words::word;

// N is 1,024 to 16,384 and a multiple of 4.
pub fn size_within(n: usize) -> bool
    ensures { result ≡ size_within n }
{
    (picture::LEAST_SIZE <= n) & ((n <= picture::GREATEST_SIZE) & (n % 4 == 0))
}

// H is a multiple of 4, at least 4, and leaves the transient area at least 4.
pub fn heap_within(n: usize, h: usize) -> bool
    requires { h < 4294967296 }
    ensures { result ≡ heap_within n h }
{
    (h % 4 == 0) & ((4 <= h) & (picture::HEAP_BASE + h + 4 <= n))
}

// Longword 0 holds N, the lent length, and N is within its limits.
#[tactic(auto, unfolding(crate::specs::Whole::size_stated))]
pub fn size_stated(p: &[u32]) -> bool
    ensures { result ≡ size_stated p.now }
{
    (word(p, picture::SIZE_WORD) as usize == p.len()) & size_within(p.len())
}

// Longword 7 holds 0.
#[tactic(auto, unfolding(crate::specs::Whole::seven_zero))]
pub fn seven_zero(p: &[u32]) -> bool
    ensures { result ≡ seven_zero p.now }
{
    word(p, picture::ZERO_WORD) == 0
}

// Longword 4 holds H, and H is within its limits.
#[tactic(auto, unfolding(crate::specs::Whole::heap_stated))]
pub fn heap_stated(p: &[u32]) -> bool
    ensures { result ≡ heap_stated p.now }
{
    heap_within(
        word(p, picture::SIZE_WORD) as usize,
        word(p, picture::HEAP_WORD) as usize,
    )
}

// The last tag given is at most 32,767.
#[tactic(auto, unfolding(crate::specs::Whole::last_within))]
pub fn last_within(p: &[u32], t: Table) -> bool
    ensures { result ≡ last_within p.now t }
{
    word(p, picture::last_of(t)) <= picture::GREATEST_TAG
}

// Nobody is current, or a ready job.
pub fn current_ready(p: &[u32]) -> bool
    ensures { result ≡ current_ready p.now }
{
    let n = word(p, picture::CURRENT_WORD);
    if n == picture::NOBODY {
        return true;
    }
    if !picture::is_live(p, Table::Jobs, n) {
        return false;
    }
    picture::is_ready(p, picture::position_of(n))
}

// The rules of the picture as a whole.
#[tactic(auto, unfolding(crate::specs::Whole::whole_fine))]
pub fn is_whole_fine(p: &[u32]) -> bool
    ensures { result ≡ whole_fine p.now }
{
    size_stated(p)
        & (seven_zero(p)
            & (heap_stated(p)
                & (last_within(p, Table::Jobs)
                    & (last_within(p, Table::Channels) & current_ready(p)))))
}

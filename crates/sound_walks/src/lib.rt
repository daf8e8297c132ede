// The test of an area, block by block in one walk, of a picture that has its tables.
#![tactic(auto)]

ghost use Rattle.std.specs.Prelude.{◌≡◌, ◌+◌, ◌<◌, ◌≤◌, length};
ghost use Rattle.picture.specs.Layout.{heap_base};
ghost use Rattle.picture.specs.declared.Table.TheVariants.{Jobs, Channels};
ghost use Rattle.blocks.specs.Header.{start_field};
ghost use Rattle.sound_walks.specs.Walks.{free_fine, held_fine, block_fine, blocks_walked};

use picture::Table;
use picture_tables::Tables;

// The rules of a free block, in an area that ends at e.
#[tactic(auto, unfolding(crate::specs::Walks::free_fine))]
pub fn is_free_fine(p: &[u32], e: usize, i: usize) -> bool
    requires { (i + start_field < length p.now) × ((i < e) × (e < 8589934592)) }
    ensures { result ≡ free_fine p.now e i }
{
    sound_areas::free_blank(p, i) && sound_areas::is_untouched(p, e, i)
}

// The rules of a block of the transient area that is not free.
#[tactic(auto, using(sound_matching::proofs::Agreeing::noted_agreed), unfolding(crate::specs::Walks::held_fine))]
pub fn is_transient_fine(p: &Tables<'_>, i: usize, noted: &[u8; 64]) -> bool
    requires { (i + start_field < length p.now) × (i < 8589934592) }
    ensures { result ≡ held_fine p.now Jobs i }
{
    p.word_at(i + blocks::KIND) == blocks::JOB
        && (sound_matching::is_agreed_as_noted(p, Table::Jobs, i, noted)
            || sound_matching::is_agreed(p, Table::Jobs, i))
}

// The rules of a block of the heap that is not free.
#[tactic(auto, using(sound_matching::proofs::Agreeing::noted_agreed), unfolding(crate::specs::Walks::held_fine))]
pub fn is_heap_fine(p: &Tables<'_>, i: usize, noted: &[u8; 64]) -> bool
    requires { (i + start_field < length p.now) × (i < 8589934592) }
    ensures { result ≡ held_fine p.now Channels i }
{
    if p.word_at(i + blocks::START) != 0 {
        return false;
    }
    let kind = p.word_at(i + blocks::KIND);
    if kind == blocks::PLAIN {
        return p.is_live(Table::Jobs, p.word_at(i + blocks::HOLDER));
    }
    kind == blocks::QUEUE
        && sound_areas::queue_room(p.longwords(), i)
        && (sound_matching::is_agreed_as_noted(p, Table::Channels, i, noted)
            || sound_matching::is_agreed(p, Table::Channels, i))
}

// The rules of a block of the table's area that is not free.
#[tactic(auto, unfolding(crate::specs::Walks::held_fine))]
pub fn is_held_fine(p: &Tables<'_>, t: Table, i: usize, noted: &[u8; 64]) -> bool
    requires { (i + start_field < length p.now) × (i < 8589934592) }
    ensures { result ≡ held_fine p.now t i }
{
    match t {
        Table::Jobs => is_transient_fine(p, i, noted),
        Table::Channels => is_heap_fine(p, i, noted),
    }
}

// The rules of the block at i of the table's area, which ends at e.
#[tactic(auto, unfolding(crate::specs::Walks::block_fine))]
pub fn is_block_fine(p: &Tables<'_>, t: Table, e: usize, i: usize, noted: &[u8; 64]) -> bool
    requires { (i < e) × ((e ≤ length p.now) × (e < 8589934592)) }
    ensures { result ≡ block_fine p.now t e i }
{
    let longwords = p.longwords();
    if !sound_areas::length_whole(longwords, i) {
        return false;
    }
    if !sound_areas::is_within(longwords, e, i) {
        return false;
    }
    if p.word_at(i + blocks::KIND) == blocks::FREE {
        return is_free_fine(longwords, e, i);
    }
    is_held_fine(p, t, i, noted)
}

// A walk over the blocks from b to e of the table's area: none where one of them breaks a rule, or how many blocks of the table's kind there are. A step
// goes by the length that the block at hand says: `Blocks` would test once more that the block is whole, as `is_block_fine` has.
pub fn walk_blocks(p: &Tables<'_>, t: Table, b: usize, e: usize, noted: &[u8; 64]) -> Option<usize>
    requires { (e ≤ length p.now) × (e < 8589934592) }
    ensures { result ≡ blocks_walked p.now t b e }
{
    let kind = blocks::kind_of(t);
    let mut i = b;
    let mut found = 0;
    while i < e {
        if !is_block_fine(p, t, e, i, noted) {
            return None;
        }
        found += usize::from(p.word_at(i + blocks::KIND) == kind);
        i += p.word_at(i) as usize / 4;
    }
    Some(found)
}

// The matching of live jobs and channels with their blocks, in a picture that has its tables.
#![tactic(auto)]

ghost use Rattle.std.specs.Prelude.{◌≡◌, ◌+◌, ◌≤◌, ◌<◌, length};
ghost use Rattle.picture.specs.Layout.{positions, heap_base};
ghost use Rattle.blocks.specs.Header.{holder_field};
ghost use Rattle.sound_matching.specs.Match.{first};
ghost use Rattle.sound_matching.specs.Agreed.{agrees, agreed, agreed_as_noted};

use picture::Table;
use picture_tables::Tables;

// The first position whose entry has a block.
pub fn first_of(t: Table) -> usize
    ensures { result ≡ first t }
{
    match t {
        Table::Jobs => 1,
        Table::Channels => 0,
    }
}

// The block at i and the record of position k agree: base and owner.
#[tactic(auto, unfolding(crate::specs::Agreed::agrees))]
pub fn is_agreeing(p: &Tables<'_>, t: Table, k: usize, i: usize) -> bool
    requires { (k < positions t) × ((i + holder_field < length p.now) × (i < 8589934592)) }
    ensures { result ≡ agrees p.now t k i }
{
    p.field_of(t, k, picture::BASE) as usize == 4 * i
        && p.field_of(t, k, picture::OWNER) == p.word_at(i + blocks::HOLDER)
}

// The block at i agrees with some record of the table, which is looked for among all.
pub fn is_agreed(p: &Tables<'_>, t: Table, i: usize) -> bool
    requires { (i + holder_field < length p.now) × (i < 8589934592) }
    ensures { result ≡ agreed p.now t i }
{
    (0..picture::positions_of(t)).any(|k| is_agreeing(p, t, k, i))
}

// The block at i agrees with the record at the position noted for its place. A byte is a position to look at first: where none was noted it is 0, which is
// looked at like any other, so `Option<u8>` would add a way out and tell nothing.
#[tactic(auto, unfolding(crate::specs::Agreed::agreed_as_noted))]
pub fn is_agreed_as_noted(p: &Tables<'_>, t: Table, i: usize, noted: &[u8; 64]) -> bool
    requires { (i + holder_field < length p.now) × (i < 8589934592) }
    ensures { result ≡ agreed_as_noted p.now t i noted.now }
{
    let k = usize::from(noted[i / 4 % 64]);
    k < picture::positions_of(t) && is_agreeing(p, t, k, i)
}

// The test for soundness: one pass over each table and one walk of each area.
#![tactic(auto)]

ghost use Rattle.std.specs.Prelude.{◌≡◌, true};
ghost use Rattle.sound_matching.specs.Match.{area_of};
ghost use Rattle.sound_whole.specs.Whole.{whole_fine};
ghost use Rattle.sound.specs.Sound.{sound};
ghost use Rattle.sound.specs.Test.{half_fine};

use picture::{Area, Table};
use picture_tables::Tables;

// The area where a table's blocks lie.
pub fn area_of(t: Table) -> Area
    ensures { result ≡ area_of t }
{
    match t {
        Table::Jobs => Area::Transient,
        Table::Channels => Area::Heap,
    }
}

// The rules of a table and of its area: every record and every block is fine, and there are as many entries as blocks.
#[tactic(auto, unfolding(crate::specs::Test::half_fine))]
pub fn is_half_fine(p: &[u32], t: Table) -> bool
    requires { whole_fine p.now ≡ true }
    ensures { result ≡ half_fine p.now t }
{
    let tables = Tables::new(p);
    let mut noted = [0u8; 64];
    let Some(n) = sound_entries::walk_entries(&tables, t, &mut noted) else {
        return false;
    };
    let a = area_of(t);
    let b = picture::area_from(p, a);
    let e = picture::area_upto(p, a);
    let Some(m) = sound_walks::walk_blocks(&tables, t, b, e, &noted) else {
        return false;
    };
    n == m
}

// The picture is sound.
pub fn is_sound(p: &[u32]) -> bool
    ensures { result ≡ sound p.now }
{
    sound_whole::is_whole_fine(p)
        && is_half_fine(p, Table::Jobs)
        && is_half_fine(p, Table::Channels)
}

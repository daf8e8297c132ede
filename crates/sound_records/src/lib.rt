// The rules of soundness for the records of either table and of channels, a function each, of a picture that has its tables.
#![tactic(auto)]

ghost use Rattle.std.specs.Prelude.{◌≡◌, true, ◌<◌, ◌≤◌, length};
ghost use Rattle.words.specs.Each.{every};
ghost use Rattle.picture.specs.Layout.{positions, width, heap_base};
ghost use Rattle.picture.specs.Records.{all_zero, number, used};
ghost use Rattle.picture.specs.Numbers.{tag};
ghost use Rattle.picture.specs.declared.Table.TheVariants.{Channels};
ghost use Rattle.sound_records.specs.Rules.{positioned, ends_in_one, tag_within, tags_differ};
ghost use Rattle.sound_records.specs.Rules.{may_be_unowned, owner_live, tag_given};

use picture::{NOBODY, Table};
use picture_tables::Tables;

// The tag of the number at position k.
pub fn tag_at(p: &Tables<'_>, t: Table, k: usize) -> u32
    requires { k < positions t }
    ensures { result ≡ tag (number p.now t k) }
{
    picture::tag_of(p.field_of(t, k, picture::NUMBER))
}

// The record of a channel in use ends in 1.
#[tactic(auto, unfolding(crate::specs::Rules::ends_in_one))]
pub fn ends_in_one(p: &Tables<'_>, k: usize) -> bool
    requires { (k < positions Channels) × (used p.now Channels k ≡ true) }
    ensures { result ≡ ends_in_one p.now k }
{
    p.field_of(Table::Channels, k, picture::ENDING) == 1
}

// Every field of the record is zero; WIDTH is how many it has. With that known the loop is unrolled, since it has no way out: `(0..WIDTH).all(..)`, which
// leaves at a field that isn't zero, takes five instructions more for each record that is not in use.
pub fn is_all_zero<const WIDTH: usize>(p: &Tables<'_>, t: Table, k: usize) -> bool
    requires { (k < positions t) × (WIDTH ≡ width t) }
    ensures { result ≡ all_zero p.now t k }
{
    let mut zero = true;
    for f in 0..WIDTH {
        zero &= p.field_of(t, k, f) == 0;
    }
    zero
}

// A number in use has its position.
#[tactic(auto, unfolding(crate::specs::Rules::positioned))]
pub fn is_positioned(p: &Tables<'_>, t: Table, k: usize) -> bool
    requires { (k < positions t) × (used p.now t k ≡ true) }
    ensures { result ≡ positioned p.now t k }
{
    picture::position_of(p.field_of(t, k, picture::NUMBER)) == k
}

// A tag in use is 1 to 32,767, but for job 0.
#[tactic(auto, unfolding(crate::specs::Rules::tag_within, sound_matching::specs::Match::has_block))]
pub fn tag_within(p: &Tables<'_>, t: Table, k: usize) -> bool
    requires { (k < positions t) × (used p.now t k ≡ true) }
    ensures { result ≡ tag_within p.now t k }
{
    let tag = tag_at(p, t, k);
    !(sound_matching::first_of(t) <= k) | ((1 <= tag) & (tag <= picture::GREATEST_TAG))
}

// Positions j and k have different tags, or j is not in use.
#[tactic(auto, unfolding(crate::specs::Rules::tags_differ))]
pub fn tags_differ(p: &Tables<'_>, t: Table, k: usize, j: usize) -> bool
    requires { (k < positions t) × (j < positions t) }
    ensures { result ≡ tags_differ p.now t k j }
{
    tag_at(p, t, j) != tag_at(p, t, k) || !p.is_used(t, j)
}

// No lower position in use has the same tag.
pub fn tag_alone(p: &Tables<'_>, t: Table, k: usize) -> bool
    requires { k < positions t }
    ensures { result ≡ every (tags_differ p.now t k) k }
{
    (0..k).all(|j| tags_differ(p, t, k, j))
}

// An entry of the table may be unowned.
pub fn may_be_unowned(t: Table) -> bool
    ensures { result ≡ may_be_unowned t }
{
    match t {
        Table::Jobs => true,
        Table::Channels => false,
    }
}

// The owner of an entry in use is live, or nobody for a job.
#[tactic(auto, unfolding(crate::specs::Rules::owner_live))]
pub fn owner_live(p: &Tables<'_>, t: Table, k: usize) -> bool
    requires { (k < positions t) × (used p.now t k ≡ true) }
    ensures { result ≡ owner_live p.now t k }
{
    let owner = p.field_of(t, k, picture::OWNER);
    (may_be_unowned(t) & (owner == NOBODY)) || p.is_live(Table::Jobs, owner)
}

// A tag in use doesn't pass the last given.
#[tactic(auto, unfolding(crate::specs::Rules::tag_given))]
pub fn tag_given(p: &Tables<'_>, t: Table, k: usize) -> bool
    requires { (k < positions t) × (used p.now t k ≡ true) }
    ensures { result ≡ tag_given p.now t k }
{
    tag_at(p, t, k) <= p.last_tag(t)
}

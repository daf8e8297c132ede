// A new entry of a table of a lent picture.
#![tactic(auto)]

ghost use Rattle.std.specs.Prelude.{◌≡◌, true, ◌<◌, ◌≤◌, length};
ghost use Rattle.picture.specs.Layout.{positions, heap_base, greatest_tag};
ghost use Rattle.picture.specs.Records.{all_zero};
ghost use Rattle.entering.specs.Entry.{recorded, counted, entered};

use picture::Table;

// The record of position k holds this number, owner and base, all else 0, as it was.
pub fn write_record(p: &mut [u32], t: Table, k: usize, number: u32, owner: u32, base: u32)
    requires { (heap_base ≤ length p.old) × ((k < positions t) × (all_zero p.old t k ≡ true)) }
    ensures { p.new ≡ recorded p.old t k number owner base }
{
    picture_tables::put_field(p, t, k, picture::NUMBER, number);
    picture_tables::put_field(p, t, k, picture::OWNER, owner);
    picture_tables::put_field(p, t, k, picture::BASE, base);
}

// Position k is in use, and the tag is the last given.
pub fn count_entry(p: &mut [u32], t: Table, k: usize, tag: u32)
    requires { (heap_base ≤ length p.old) × (k < positions t) }
    ensures { p.new ≡ counted p.old t k tag }
{
    let set = picture::members_at(p, t);
    picture::put_members(p, t, masks::with_member(set, k));
    picture_tables::put_at(p, picture::last_of(t), tag);
}

// The entry with this tag at position k, of this owner and base, is in the table.
pub fn enter(p: &mut [u32], t: Table, k: usize, tag: u32, owner: u32, base: u32)
    requires { ((heap_base ≤ length p.old) × ((k < positions t) × (all_zero p.old t k ≡ true))) × (tag ≤ greatest_tag) }
    ensures { p.new ≡ entered p.old t k tag owner base }
{
    write_record(p, t, k, picture::number_of(tag, k), owner, base);
    count_entry(p, t, k, tag);
}

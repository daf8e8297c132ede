// The test of a table, record by record in one pass, of a picture that has its tables.
#![tactic(auto)]

ghost use Rattle.std.specs.Prelude.{◌≡◌, true, ◌<◌, ◌≤◌, length};
ghost use Rattle.picture.specs.Layout.{positions, heap_base};
ghost use Rattle.picture.specs.Records.{used};
ghost use Rattle.picture.specs.declared.Table.TheVariants.{Jobs, Channels};
ghost use Rattle.sound_entries.specs.Entries.{note_of, told_once, with_note};
ghost use Rattle.sound_entries.specs.Entries.{entry_fine, zero_fine, live_fine, blank_fine, entries_walked};

use picture::Table;
use picture_tables::Tables;

// What lower positions in use left under the last six bits of a tag: nothing where none has them, the position that has, or that several have.
#[derive(Clone, Copy)]
pub enum Note {
    Nothing,
    At(u8),
    Several,
}

// The rules that a record in use of either table keeps.
#[tactic(auto, unfolding(crate::specs::Entries::entry_fine))]
pub fn is_entry_fine(p: &Tables<'_>, t: Table, k: usize) -> bool
    requires { (k < positions t) × (used p.now t k ≡ true) }
    ensures { result ≡ entry_fine p.now t k }
{
    sound_records::is_positioned(p, t, k)
        && sound_records::tag_within(p, t, k)
        && sound_records::tag_given(p, t, k)
        && sound_records::owner_live(p, t, k)
}

// The rules of job 0; any other job keeps them.
#[tactic(auto, unfolding(crate::specs::Entries::zero_fine, sound_records::specs::Rules::zero_exists, sound_records::specs::Rules::zero_base, sound_records::specs::Rules::zero_unowned))]
pub fn is_zero_fine(p: &Tables<'_>, k: usize) -> bool
    requires { (k < positions Jobs) × (used p.now Jobs k ≡ true) }
    ensures { result ≡ zero_fine p.now k }
{
    if k != 0 {
        return true;
    }
    sound_job_records::zero_exists(p, k)
        & (sound_job_records::zero_base(p, k) & sound_job_records::zero_unowned(p, k))
}

// The rules of a job in use.
#[tactic(auto, unfolding(crate::specs::Entries::live_fine))]
pub fn is_job_fine(p: &Tables<'_>, k: usize) -> bool
    requires { (k < positions Jobs) × (used p.now Jobs k ≡ true) }
    ensures { result ≡ live_fine p.now Jobs k }
{
    is_entry_fine(p, Table::Jobs, k)
        && is_zero_fine(p, k)
        && sound_job_records::priority_within(p, k)
        && sound_job_records::accumulated_within(p, k)
        && sound_job_records::timeout_within(p, k)
        && sound_job_records::owner_older(p, k)
        && sound_job_records::wait_allowed(p, k)
        && sound_job_records::idle_zero(p, k)
}

// The rules of a channel in use.
#[tactic(auto, unfolding(crate::specs::Entries::live_fine))]
pub fn is_channel_fine(p: &Tables<'_>, k: usize) -> bool
    requires { (k < positions Channels) × (used p.now Channels k ≡ true) }
    ensures { result ≡ live_fine p.now Channels k }
{
    is_entry_fine(p, Table::Channels, k) && sound_records::ends_in_one(p, k)
}

// The rules of a record in use, but that its tag is used once.
#[tactic(auto, unfolding(crate::specs::Entries::live_fine))]
pub fn is_live_fine(p: &Tables<'_>, t: Table, k: usize) -> bool
    requires { (k < positions t) × (used p.now t k ≡ true) }
    ensures { result ≡ live_fine p.now t k }
{
    match t {
        Table::Jobs => is_job_fine(p, k),
        Table::Channels => is_channel_fine(p, k),
    }
}

// A record not in use is all zero, and not job 0's.
#[tactic(auto, unfolding(crate::specs::Entries::blank_fine))]
pub fn is_blank_fine(p: &Tables<'_>, t: Table, k: usize) -> bool
    requires { k < positions t }
    ensures { result ≡ blank_fine p.now t k }
{
    match t {
        Table::Jobs => (1 <= k) & sound_records::is_all_zero::<{ picture::JOB_WIDTH }>(p, t, k),
        Table::Channels => sound_records::is_all_zero::<{ picture::CHANNEL_WIDTH }>(p, t, k),
    }
}

// No lower position in use has the same tag. The note under the tag's last six bits says whether none is looked at, or one, or all. It has position k
// afterwards.
#[tactic(auto, unfolding(crate::specs::Entries::told_once, crate::specs::Entries::with_note))]
pub fn is_tag_once(p: &Tables<'_>, t: Table, k: usize, seen: &mut [Note; 64]) -> bool
    requires { k < positions t }
    ensures value { result ≡ told_once p.now t k (note_of p.now t k seen.old) }
    ensures seen_after { seen.new ≡ with_note p.now t k seen.old }
{
    let low = (sound_records::tag_at(p, t, k) % 64) as usize;
    match seen[low] {
        Note::Nothing => {
            seen[low] = Note::At(k as u8);
            true
        }
        Note::At(j) => {
            seen[low] = Note::Several;
            if usize::from(j) < k {
                return sound_records::tags_differ(p, t, k, usize::from(j));
            }
            sound_records::tag_alone(p, t, k)
        }
        Note::Several => sound_records::tag_alone(p, t, k),
    }
}

// A walk over the table: none where a record breaks a rule, or how many entries have a block. It notes the position of each entry under its block's place,
// and under the last six bits of its tag, which only say where to look first.
pub fn walk_entries(p: &Tables<'_>, t: Table, noted: &mut [u8; 64]) -> Option<usize>
    ensures { result ≡ entries_walked p.now t }
{
    let first = sound_matching::first_of(t);
    let mut seen = [Note::Nothing; 64];
    let mut entries = 0;
    for k in 0..picture::positions_of(t) {
        if !p.is_used(t, k) {
            if !is_blank_fine(p, t, k) {
                return None;
            }
            continue;
        }
        if !is_live_fine(p, t, k) {
            return None;
        }
        if !is_tag_once(p, t, k, &mut seen) {
            return None;
        }
        noted[(p.field_of(t, k, picture::BASE) / 16 % 64) as usize] = k as u8;
        entries += usize::from(first <= k);
    }
    Some(entries)
}

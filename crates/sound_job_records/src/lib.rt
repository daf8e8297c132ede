// The rules of soundness for the records of jobs, a function each, of a picture that has its tables.
#![tactic(auto)]

ghost use Rattle.std.specs.Prelude.{◌≡◌, true, ◌<◌, ◌≤◌, length};
ghost use Rattle.picture.specs.Layout.{positions, heap_base};
ghost use Rattle.picture.specs.Records.{used};
ghost use Rattle.picture.specs.declared.Table.TheVariants.{Jobs};
ghost use Rattle.sound_records.specs.Rules.{zero_base, priority_within, accumulated_within, timeout_within};
ghost use Rattle.sound_records.specs.Rules.{zero_exists, owner_older, zero_unowned, wait_allowed, idle_zero};

use picture::{GREATEST_PRIORITY, GREATEST_TIMEOUT, HOLD, NOBODY, Table, WITHOUT_END};
use picture_tables::Tables;
use sound_records::tag_at;

// Job 0 has block base 0.
#[tactic(auto, unfolding(sound_records::specs::Rules::zero_base))]
pub fn zero_base(p: &Tables<'_>, k: usize) -> bool
    requires { k < positions Jobs }
    ensures { result ≡ zero_base p.now k }
{
    (k != 0) | (p.field_of(Table::Jobs, k, picture::BASE) == 0)
}

// Priority 0 to 127.
#[tactic(auto, unfolding(sound_records::specs::Rules::priority_within))]
pub fn priority_within(p: &Tables<'_>, k: usize) -> bool
    requires { k < positions Jobs }
    ensures { result ≡ priority_within p.now k }
{
    p.field_of(Table::Jobs, k, picture::PRIORITY) <= GREATEST_PRIORITY
}

// Accumulated 0 to 8,191.
#[tactic(auto, unfolding(sound_records::specs::Rules::accumulated_within))]
pub fn accumulated_within(p: &Tables<'_>, k: usize) -> bool
    requires { k < positions Jobs }
    ensures { result ≡ accumulated_within p.now k }
{
    p.field_of(Table::Jobs, k, picture::ACCUMULATED) <= HOLD
}

// Timeout 0 to 32,767, or -1.
#[tactic(auto, unfolding(sound_records::specs::Rules::timeout_within))]
pub fn timeout_within(p: &Tables<'_>, k: usize) -> bool
    requires { k < positions Jobs }
    ensures { result ≡ timeout_within p.now k }
{
    let timeout = p.timeout_of(k);
    (WITHOUT_END <= timeout) & (timeout <= GREATEST_TIMEOUT)
}

// Job 0, in use, has number 0.
#[tactic(auto, unfolding(sound_records::specs::Rules::zero_exists))]
pub fn zero_exists(p: &Tables<'_>, k: usize) -> bool
    requires { (k < positions Jobs) × (used p.now Jobs k ≡ true) }
    ensures { result ≡ zero_exists p.now k }
{
    (k != 0) | (p.field_of(Table::Jobs, k, picture::NUMBER) == 0)
}

// The owner of a job in use has a smaller tag.
#[tactic(auto, unfolding(sound_records::specs::Rules::owner_older))]
pub fn owner_older(p: &Tables<'_>, k: usize) -> bool
    requires { (k < positions Jobs) × (used p.now Jobs k ≡ true) }
    ensures { result ≡ owner_older p.now k }
{
    let owner = p.field_of(Table::Jobs, k, picture::OWNER);
    (owner == NOBODY) | (picture::tag_of(owner) < tag_at(p, Table::Jobs, k))
}

// Job 0 is unowned.
#[tactic(auto, unfolding(sound_records::specs::Rules::zero_unowned))]
pub fn zero_unowned(p: &Tables<'_>, k: usize) -> bool
    requires { k < positions Jobs }
    ensures { result ≡ zero_unowned p.now k }
{
    (k != 0) | (p.field_of(Table::Jobs, k, picture::OWNER) == NOBODY)
}

// A job waits for a live job other than 0 or itself, with timeout -1.
#[tactic(auto, unfolding(sound_records::specs::Rules::wait_allowed))]
pub fn wait_allowed(p: &Tables<'_>, k: usize) -> bool
    requires { k < positions Jobs }
    ensures { result ≡ wait_allowed p.now k }
{
    let waited = p.field_of(Table::Jobs, k, picture::WAIT);
    waited == 0
        || (p.is_live(Table::Jobs, waited)
            && waited != p.field_of(Table::Jobs, k, picture::NUMBER)
            && p.timeout_of(k) == WITHOUT_END)
}

// Accumulated is 0 unless ready.
#[tactic(auto, unfolding(sound_records::specs::Rules::idle_zero))]
pub fn idle_zero(p: &Tables<'_>, k: usize) -> bool
    requires { k < positions Jobs }
    ensures { result ≡ idle_zero p.now k }
{
    p.field_of(Table::Jobs, k, picture::ACCUMULATED) == 0 || p.is_ready(k)
}

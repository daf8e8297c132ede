// Trap 1 $2: asking about a job of a tree.
#![tactic(auto)]

ghost use Rattle.std.specs.Prelude.{◌≡◌, true, ◌*◌, ◌≤◌, ◌<◌};
ghost use Rattle.picture.specs.Layout.{positions, greatest_size};
ghost use Rattle.picture.specs.Records.{base, priority};
ghost use Rattle.picture.specs.declared.Table.TheVariants.{Jobs};
ghost use Rattle.picture.specs.Layout.{greatest_priority};
ghost use Rattle.sound.specs.Sound.{sound};
ghost use Rattle.calls.specs.Outcome.{Meets};
ghost use Rattle.calls.specs.Call.{outcome};
ghost use Rattle.picture.specs.Answers.{answer_key};
ghost use Rattle.asking.specs.Next.{nearer, next_below, next_member};
ghost use Rattle.asking.specs.Ask.{standing, room, answered, ask};

use calls::number_meant;
use picture::{JOBS, JobNumber, Refusal, Table, entry_at, field_of};
use words::{put, word};

// D3 of a suspended job, but for its priority.
const SUSPENDED: u32 = 0xFF00_0000;

// The bytes of a header.
const HEADER_BYTES: u32 = 16;

// The job at position k is a member of the set, has a greater tag than `tag`, and a smaller one than the job n; 0 is none.
fn is_nearer(p: &[u32], set: u64, tag: u32, n: u32, k: usize) -> bool
    requires { k < positions Jobs }
    ensures { result ≡ nearer p.now set tag n k }
{
    let own = picture::tag_of(field_of(p, Table::Jobs, k, picture::NUMBER));
    if own <= tag {
        return false;
    }
    if n == 0 {
        return masks::is_member(set, k);
    }
    if picture::tag_of(n) <= own {
        return false;
    }
    masks::is_member(set, k)
}

// The number of the member of the set with the next tag after `tag`, or 0, which stands for none here as it does in D1: so says `next_member`.
pub fn next_member(p: &[u32], set: u64, tag: u32) -> u32
    ensures { result ≡ next_member p.now set tag }
{
    let mut n: u32 = 0;
    for k in 0..JOBS {
        if is_nearer(p, set, tag, n, k) {
            n = field_of(p, Table::Jobs, k, picture::NUMBER);
        }
    }
    n
}

// $FF000000 if the job at position k is suspended, plus its priority.
fn standing_of(p: &[u32], k: usize) -> u32
    requires { (k < positions Jobs) × (priority p.now k ≤ greatest_priority) }
    ensures { result ≡ standing p.now k }
{
    let priority = field_of(p, Table::Jobs, k, picture::PRIORITY);
    if picture::timeout_of(p, k) == 0 {
        return priority;
    }
    SUSPENDED + priority
}

// The first byte of the room of the job at position k, 0 for job 0.
fn room_of(p: &[u32], k: usize) -> u32
    requires { (k < positions Jobs) × (base p.now Jobs k < 4 * greatest_size) }
    ensures { result ≡ room p.now k }
{
    if k == 0 {
        return 0;
    }
    field_of(p, Table::Jobs, k, picture::BASE) + HEADER_BYTES
}

// The registers answer for the job at position k in the tree of the job at position t.
fn answer(p: &[u32], d: &mut [u32], t: usize, k: usize)
    requires { (k < positions Jobs) × ((priority p.now k ≤ greatest_priority) × (base p.now Jobs k < 4 * greatest_size)) }
    ensures { d.new ≡ answered p.now d.old t k }
{
    let tag = picture::tag_of(field_of(p, Table::Jobs, k, picture::NUMBER));
    put(d, calls::D1, next_member(p, tree::tree_of(p, t), tag));
    put(d, calls::D2, field_of(p, Table::Jobs, k, picture::OWNER));
    put(d, calls::D3, standing_of(p, k));
    put(d, calls::A0, room_of(p, k));
    put(d, calls::A1, 0);
}

// Trap 1 $2: the job that D1 means, in the tree of the job D2.
pub fn ask(p: &mut [u32], d: &mut [u32]) -> Result<(), Refusal>
    requires { sound p.old ≡ true }
    ensures { Meets (outcome ask p.old d.old) (answer_key result) p.new d.new }
{
    let Some(t) = entry_at(p, JobNumber(word(d, calls::D2))) else {
        return Err(Refusal::InvalidJob);
    };
    let Some(k) = entry_at(p, number_meant(p, word(d, calls::D1))) else {
        return Err(Refusal::InvalidJob);
    };
    if !tree::is_in_tree(p, t, k) {
        return Err(Refusal::InvalidJob);
    }
    answer(p, d, t, k);
    Ok(())
}

// Trap 1 $4 and $5: ending a job and all its descendants, with their blocks and channels.
#![tactic(auto)]

ghost use Rattle.std.specs.Prelude.{◌≡◌, true, ◌≤◌, ◌<◌, length};
ghost use Rattle.picture.specs.Layout.{positions, heap_base, upto, greatest_size};
ghost use Rattle.picture.specs.declared.Area.TheVariants.{Heap, Transient};
ghost use Rattle.picture.specs.declared.Table.TheVariants.{Jobs};
ghost use Rattle.sound.specs.Sound.{sound};
ghost use Rattle.calls.specs.Outcome.{Meets};
ghost use Rattle.calls.specs.Call.{outcome};
ghost use Rattle.picture.specs.Answers.{answer_key};
ghost use Rattle.ending.specs.Ended.{returned, ended};
ghost use Rattle.ending.specs.Remove.{inactive, remove, force_remove};

use calls::number_meant;
use emptying::{channels_of, take_entries};
use freeing::sweep;
use picture::{Area, JOBS, Refusal, Table, entry_at, field_of};
use tree::tree_of;
use words::{clear, word};

// No block of the heap starts here.
const NO_BLOCK: usize = 0;

// No member of the set is active.
pub fn is_inactive(p: &[u32], set: u64) -> bool
    ensures { result ≡ inactive p.now set }
{
    for k in 0..JOBS {
        if masks::is_member(set, k) & picture::is_active(p, k) {
            return false;
        }
    }
    true
}

// The blocks of the jobs of the set are given back, and the job block at `block`.
pub fn return_blocks(p: &mut [u32], set: u64, block: usize)
    requires { (upto p.old Heap ≤ greatest_size) × (upto p.old Transient ≤ greatest_size) }
    ensures { p.new ≡ returned p.old set block }
{
    let middle = picture::area_upto(p, Area::Heap);
    let end = picture::area_upto(p, Area::Transient);
    sweep(p, picture::HEAP_BASE, middle, set, NO_BLOCK);
    sweep(p, middle, end, set, block);
}

// The tree of the job at position t is ended.
pub fn end_tree(p: &mut [u32], t: usize, key: u32)
    requires { ((heap_base ≤ length p.old) × (t < positions Jobs)) × ((upto p.old Heap ≤ greatest_size) × (upto p.old Transient ≤ greatest_size)) }
    ensures { p.new ≡ ended p.old t key }
{
    let tree = tree_of(p, t);
    let channels = channels_of(p, tree);
    let block = (field_of(p, Table::Jobs, t, picture::BASE) / 4) as usize;
    return_blocks(p, tree, block);
    take_entries(p, tree, channels, key);
}

// Trap 1 $4: the job that D1 means and all its descendants go, if none of them is active.
pub fn remove(p: &mut [u32], d: &mut [u32]) -> Result<(), Refusal>
    requires { sound p.old ≡ true }
    ensures { Meets (outcome remove p.old d.old) (answer_key result) p.new d.new }
{
    let Some(t) = entry_at(p, number_meant(p, word(d, calls::D1))) else {
        return Err(Refusal::InvalidJob);
    };
    if t == 0 {
        return Err(Refusal::BadParameter);
    }
    if !is_inactive(p, tree_of(p, t)) {
        return Err(Refusal::NotComplete);
    }
    end_tree(p, t, word(d, calls::D3));
    clear(d, calls::D1, calls::REGISTERS);
    Ok(())
}

// Trap 1 $5: the job that D1 means and all its descendants go.
pub fn force_remove(p: &mut [u32], d: &mut [u32]) -> Result<(), Refusal>
    requires { sound p.old ≡ true }
    ensures { Meets (outcome force_remove p.old d.old) (answer_key result) p.new d.new }
{
    let Some(t) = entry_at(p, number_meant(p, word(d, calls::D1))) else {
        return Err(Refusal::InvalidJob);
    };
    if t == 0 {
        return Err(Refusal::BadParameter);
    }
    end_tree(p, t, word(d, calls::D3));
    clear(d, calls::D1, calls::REGISTERS);
    Ok(())
}

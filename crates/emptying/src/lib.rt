// Taking the jobs of a tree and their channels out of the tables; a set holds the positions of the tree.
#![tactic(auto)]

ghost use Rattle.std.specs.Prelude.{◌≡◌, ◌<◌, ◌≤◌, length};
ghost use Rattle.picture.specs.Layout.{positions, heap_base};
ghost use Rattle.picture.specs.declared.Table.TheVariants.{Jobs, Channels};
ghost use Rattle.emptying.specs.Each.{each};
ghost use Rattle.emptying.specs.Taken.{waits, woken, blanked, emptied, taken, channel_goes, channels_of};

use calls::{put_field, put_nobody, put_timeout};
use freeing::is_named;
use masks::is_member;
use picture::{CHANNELS, JOBS, Table, field_of, is_used};
use words::clear;

// The job at position k is outside the set and waits for one of it.
#[tactic(auto, unfolding(crate::specs::Taken::waits))]
fn is_waiting(p: &[u32], set: u64, k: usize) -> bool
    requires { k < positions Jobs }
    ensures { result ≡ waits p.now set k }
{
    let n = field_of(p, Table::Jobs, k, picture::WAIT);
    is_used(p, Table::Jobs, k) & (!is_member(set, k) & ((n != 0) & is_named(set, n)))
}

// The job at position k is woken with the key if it waits for one of the set.
#[tactic(auto, unfolding(crate::specs::Taken::woken))]
fn wake(p: &mut [u32], set: u64, key: u32, k: usize)
    requires { k < positions Jobs }
    ensures { p.new ≡ woken set key p.old k }
{
    if is_waiting(p, set, k) {
        put_timeout(p, k, 0);
        put_field(p, Table::Jobs, k, picture::WAIT, 0);
        put_field(p, Table::Jobs, k, picture::KEY, key);
    }
}

// Each job outside the set that waits for one of it is woken with the key.
#[tactic(auto, unfolding(crate::specs::Each::each))]
fn wake_all(p: &mut [u32], set: u64, key: u32)
    ensures { p.new ≡ each (woken set key) (positions Jobs) p.old }
{
    for k in 0..JOBS {
        wake(p, set, key, k);
    }
}

// The record of position k is zero if k is in the set.
#[tactic(auto, unfolding(crate::specs::Taken::blanked))]
fn blank(p: &mut [u32], t: Table, set: u64, k: usize)
    requires { k < positions t }
    ensures { p.new ≡ blanked t set p.old k }
{
    if is_member(set, k) {
        let i = picture::slot_of(t, k);
        clear(p, i, i + picture::width_of(t));
    }
}

// The table is without the entries of the set.
#[tactic(auto, using(crate::proofs::Steps::length_blanked), unfolding(crate::specs::Taken::emptied, crate::specs::Each::each))]
fn empty_table(p: &mut [u32], t: Table, set: u64)
    requires { heap_base ≤ length p.old }
    ensures { p.new ≡ emptied p.old t set }
{
    for k in 0..picture::positions_of(t) {
        blank(p, t, set, k);
    }
    let members = picture::members_at(p, t);
    picture::put_members(p, t, masks::difference(members, set));
}

// The channel at position k is owned by a job of the set.
#[tactic(auto, unfolding(crate::specs::Taken::channel_goes))]
fn is_channel_going(p: &[u32], set: u64, k: usize) -> bool
    requires { k < positions Channels }
    ensures { result ≡ channel_goes p.now set k }
{
    is_used(p, Table::Channels, k) & is_named(set, field_of(p, Table::Channels, k, picture::OWNER))
}

// The channels that jobs of the set own.
#[tactic(auto, unfolding(crate::specs::Taken::channels_of))]
pub fn channels_of(p: &[u32], set: u64) -> u64
    ensures { result ≡ channels_of p.now set }
{
    masks::positions_passing(CHANNELS, |k| is_channel_going(p, set, k))
}

// The tables are without the jobs of the set and without those channels, waiters are woken with the key, nobody is current.
#[tactic(auto, unfolding(crate::specs::Taken::taken))]
pub fn take_entries(p: &mut [u32], set: u64, channels: u64, key: u32)
    requires { heap_base ≤ length p.old }
    ensures { p.new ≡ taken p.old set channels key }
{
    wake_all(p, set, key);
    empty_table(p, Table::Jobs, set);
    empty_table(p, Table::Channels, channels);
    put_nobody(p);
}

// The calls on open channels: closing, asking, fetching and sending.
#![tactic(auto)]

ghost use Rattle.std.specs.Prelude.{◌≡◌, true, ◌<◌, ◌≤◌, length};
ghost use Rattle.picture.specs.Layout.{positions, heap_base, greatest_size, upto};
ghost use Rattle.picture.specs.declared.Area.TheVariants.{Heap};
ghost use Rattle.picture.specs.declared.Table.TheVariants.{Channels};
ghost use Rattle.picture.specs.Numbers.{channel_at};
ghost use Rattle.calls.specs.Registers.{A0};
ghost use Rattle.sound.specs.Sound.{sound};
ghost use Rattle.calls.specs.Outcome.{Meets};
ghost use Rattle.calls.specs.Call.{outcome};
ghost use Rattle.picture.specs.Answers.{answer_key};
ghost use Rattle.channels.specs.Effects.{queue_of, forgotten, closed, immediate};
ghost use Rattle.channels.specs.Calls.{close_channel, pending, fetch, send};

use picture::{Area, ChannelNumber, Refusal, Table};
use words::{put, word};

// D3's low word, a timeout, is 0.
pub fn is_immediate(d: &[u32]) -> bool
    ensures { result ≡ immediate d.now }
{
    words::low_half(word(d, calls::D3)) == 0
}

// The position of the channel that A0 names, by its whole number.
pub fn channel_named(p: &[u32], d: &[u32]) -> Option<usize>
    ensures { result ≡ channel_at p.now (A0 d.now) }
{
    picture::entry_at(p, ChannelNumber(word(d, calls::A0)))
}

// The queue of the channel at position k: its block.
pub fn queue_at(p: &[u32], k: usize) -> usize
    requires { k < positions Channels }
    ensures { (result ≡ queue_of p.now k) × (result < 1073741824) }
{
    picture::field_of(p, Table::Channels, k, picture::BASE) as usize / 4
}

// The entry of position k is gone.
pub fn forget(p: &mut [u32], t: Table, k: usize)
    requires { (heap_base ≤ length p.old) × (k < positions t) }
    ensures { p.new ≡ forgotten p.old t k }
{
    let left = masks::without_member(picture::members_at(p, t), k);
    let slot = picture::slot_of(t, k);
    words::clear(p, slot, slot + picture::width_of(t));
    picture::put_members(p, t, left);
}

// The channel at position k is gone.
pub fn remove_channel(p: &mut [u32], k: usize)
    requires { ((heap_base ≤ length p.old) × (k < positions Channels)) × (upto p.old Heap ≤ greatest_size) }
    ensures { p.new ≡ closed p.old k }
{
    let block = queue_at(p, k);
    let from = picture::area_from(p, Area::Heap);
    let upto = picture::area_upto(p, Area::Heap);
    freeing::sweep(p, from, upto, 0, block);
    forget(p, Table::Channels, k);
}

// Trap 2 $2: closes a channel.
pub fn close_channel(p: &mut [u32], d: &mut [u32]) -> Result<(), Refusal>
    requires { sound p.old ≡ true }
    ensures { Meets (outcome close_channel p.old d.old) (answer_key result) p.new d.new }
{
    let Some(k) = channel_named(p, d) else {
        return Err(Refusal::ChannelNotOpen);
    };
    remove_channel(p, k);
    Ok(())
}

// Trap 3 $0: asks whether a byte waits.
pub fn pending(p: &mut [u32], d: &mut [u32]) -> Result<(), Refusal>
    ensures { Meets (outcome pending p.old d.old) (answer_key result) p.new d.new }
{
    let Some(k) = channel_named(p, d) else {
        return Err(Refusal::ChannelNotOpen);
    };
    if !is_immediate(d) {
        return Err(Refusal::BadParameter);
    }
    if !queues::is_waiting(p, queue_at(p, k)) {
        return Err(Refusal::NotComplete);
    }
    Ok(())
}

// Trap 3 $1: takes the oldest byte into D1.
pub fn fetch(p: &mut [u32], d: &mut [u32]) -> Result<(), Refusal>
    requires { sound p.old ≡ true }
    ensures { Meets (outcome fetch p.old d.old) (answer_key result) p.new d.new }
{
    let Some(k) = channel_named(p, d) else {
        return Err(Refusal::ChannelNotOpen);
    };
    if !is_immediate(d) {
        return Err(Refusal::BadParameter);
    }
    let i = queue_at(p, k);
    if !queues::is_waiting(p, i) {
        return Err(Refusal::NotComplete);
    }
    put(d, calls::D1, queues::oldest_of(p, i));
    queues::take_oldest(p, i);
    Ok(())
}

// Trap 3 $5: writes D1's low byte behind the newest.
pub fn send(p: &mut [u32], d: &mut [u32]) -> Result<(), Refusal>
    requires { sound p.old ≡ true }
    ensures { Meets (outcome send p.old d.old) (answer_key result) p.new d.new }
{
    let Some(k) = channel_named(p, d) else {
        return Err(Refusal::ChannelNotOpen);
    };
    if !is_immediate(d) {
        return Err(Refusal::BadParameter);
    }
    let i = queue_at(p, k);
    if queues::is_full(p, i) {
        return Err(Refusal::NotComplete);
    }
    queues::add_newest(p, i, word(d, calls::D1) % 256);
    Ok(())
}

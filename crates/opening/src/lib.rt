// The call that opens a channel.
#![tactic(auto)]

ghost use Rattle.std.specs.Prelude.{◌≡◌, true, ◌<◌, ◌≤◌, length};
ghost use Rattle.picture.specs.Layout.{positions, heap_base, greatest_tag, greatest_size};
ghost use Rattle.picture.specs.Records.{all_zero};
ghost use Rattle.picture.specs.declared.Table.TheVariants.{Channels};
ghost use Rattle.picture.specs.Answers.{answer_key};
ghost use Rattle.sound.specs.Sound.{sound};
ghost use Rattle.calls.specs.Outcome.{Meets};
ghost use Rattle.calls.specs.Call.{outcome};
ghost use Rattle.opening.specs.Effects.{channelled, channel_registers};
ghost use Rattle.opening.specs.Calls.{open_channel};

use headers::Block;
use picture::{Area, Refusal, Table};
use words::{put, word};

// The entry with this tag at position k, of this owner, for the queue at i, is in the table.
#[tactic(auto, unfolding(crate::specs::Effects::channelled))]
pub fn enter_channel(p: &mut [u32], k: usize, tag: u32, owner: u32, i: usize)
    requires { (((heap_base ≤ length p.old) × ((k < positions Channels) × (all_zero p.old Channels k ≡ true))) × (tag ≤ greatest_tag)) × (i < greatest_size) }
    ensures { p.new ≡ channelled p.old k tag owner i }
{
    entering::enter(p, Table::Channels, k, tag, owner, rooms::header_byte(i));
    picture_tables::put_field(p, Table::Channels, k, picture::ENDING, 1);
}

// D1 is the owner, A0 the channel.
#[tactic(auto, unfolding(crate::specs::Effects::channel_registers))]
pub fn answer_channel(d: &mut [u32], owner: u32, channel: u32)
    ensures { d.new ≡ channel_registers owner channel d.old }
{
    put(d, calls::D1, owner);
    put(d, calls::A0, channel);
}

// Trap 2 $1: opens a channel.
pub fn open_channel(p: &mut [u32], d: &mut [u32], name: &[u8]) -> Result<(), Refusal>
    requires { sound p.old ≡ true }
    ensures { Meets (outcome (open_channel name.now) p.old d.old) (answer_key result) p.new d.new }
{
    let meant = calls::number_meant(p, word(d, calls::D1));
    let owner = meant.0;
    let Some(_) = picture::entry_at(p, meant) else {
        return Err(Refusal::InvalidJob);
    };
    let n = names::read_name(name)?;
    let k = picture::free_position(p, Table::Channels);
    if picture::CHANNELS <= k {
        return Err(Refusal::ChannelNotOpen);
    }
    let last = picture::word_at(p, picture::last_of(Table::Channels));
    if picture::GREATEST_TAG <= last {
        return Err(Refusal::ChannelNotOpen);
    }
    let bytes = blocks::round_up(32 + n as u64);
    let block = Block {
        kind: blocks::QUEUE,
        owner,
        start: 0,
    };
    let Some(i) = rooms::place_in(p, Area::Heap, bytes, block) else {
        return Err(Refusal::OutOfMemory);
    };
    put(p, i + blocks::QUEUE_LENGTH, n);
    enter_channel(p, k, last + 1, owner, i);
    answer_channel(d, owner, picture::number_of(last + 1, k));
    Ok(())
}

// The calls on memory: the longest free room, and taking and giving back heap space.
#![tactic(auto)]

ghost use Rattle.std.specs.Prelude.{◌≡◌, true, ◌-◌, ◌<◌};
ghost use Rattle.picture.specs.Layout.{greatest_size};
ghost use Rattle.picture.specs.Answers.{answer_key};
ghost use Rattle.sound.specs.Sound.{sound};
ghost use Rattle.calls.specs.Outcome.{Meets};
ghost use Rattle.calls.specs.Call.{outcome};
ghost use Rattle.calls.specs.Registers.{cleared};
ghost use Rattle.memory.specs.Memory.{length_good, room_registers, longest_room, take};
ghost use Rattle.memory.specs.Memory.{plain_room, is_plain_room, block_before, give_back};

use blocks::Blocks;
use calls::{A0, D1, D2};
use headers::Block;
use picture::{Area, Refusal};
use words::{put, word};

// D1 to A3 become 0.
pub fn clear_registers(d: &mut [u32])
    ensures { d.new ≡ cleared d.old }
{
    words::clear(d, D1, calls::REGISTERS);
}

// The bytes of room in a block of this length, 0 for no block.
pub fn room_of(length: u32) -> u32
    ensures { result ≡ length - 16 }
{
    length.saturating_sub(16)
}

// $6: the longest free room of the transient area.
pub fn longest_room(p: &mut [u32], d: &mut [u32]) -> Result<(), Refusal>
    ensures { Meets (outcome longest_room p.old d.old) (answer_key result) p.new d.new }
{
    let base = picture::area_from(p, Area::Transient);
    let e = picture::area_upto(p, Area::Transient);
    let length = placing::longest_free(p, base, e);
    clear_registers(d);
    put(d, D1, room_of(length));
    Ok(())
}

// A length that can be taken.
#[tactic(auto, unfolding(crate::specs::Memory::length_good))]
pub fn is_length(n: u32) -> bool
    ensures { result ≡ length_good n }
{
    (1 <= n) & (n < 0x8000_0000)
}

// D1 is the room of the block of this length at i, A0 its first byte; the others become 0.
#[tactic(auto, unfolding(crate::specs::Memory::room_registers))]
pub fn answer_room(d: &mut [u32], length: u32, i: usize)
    requires { i < greatest_size }
    ensures { d.new ≡ room_registers length i d.old }
{
    clear_registers(d);
    put(d, D1, room_of(length));
    put(d, A0, rooms::first_byte(i));
}

// $18: takes heap space for an owner.
pub fn take(p: &mut [u32], d: &mut [u32]) -> Result<(), Refusal>
    requires { sound p.old ≡ true }
    ensures { Meets (outcome take p.old d.old) (answer_key result) p.new d.new }
{
    let n = word(d, D1);
    if !is_length(n) {
        return Err(Refusal::BadParameter);
    }
    let owner = calls::number_meant(p, word(d, D2));
    let Some(_) = picture::entry_at(p, owner) else {
        return Err(Refusal::InvalidJob);
    };
    let length = rooms::block_length(n as u64);
    let block = Block {
        kind: blocks::PLAIN,
        owner: owner.0,
        start: 0,
    };
    let Some(i) = rooms::place_in(p, Area::Heap, length, block) else {
        return Err(Refusal::OutOfMemory);
    };
    answer_room(d, length as u32, i);
    Ok(())
}

// The block at i is plain and its first byte of room is at the byte offset a.
#[tactic(auto, unfolding(crate::specs::Memory::plain_room))]
pub fn is_plain_at(p: &[u32], a: u32, i: usize) -> bool
    requires { i < 8589934592 }
    ensures { result ≡ plain_room p.now a i }
{
    (word(p, i + blocks::KIND) == blocks::PLAIN) & (4 * i + 16 == a as usize)
}

// A plain block of the heap has its first byte of room at the byte offset a.
pub fn is_plain_room(p: &[u32], a: u32) -> bool
    ensures { result ≡ is_plain_room p.now a }
{
    for i in Blocks::of_area(p, Area::Heap) {
        if is_plain_at(p, a, i) {
            return true;
        }
    }
    false
}

// The block whose first byte of room is at the byte offset a.
pub fn block_before(a: u32) -> usize
    ensures { result ≡ block_before a }
{
    ((a / 4) as usize).saturating_sub(blocks::HEADER)
}

// $19: gives heap space back.
pub fn give_back(p: &mut [u32], d: &mut [u32]) -> Result<(), Refusal>
    requires { sound p.old ≡ true }
    ensures { Meets (outcome give_back p.old d.old) (answer_key result) p.new d.new }
{
    let a = word(d, A0);
    if !is_plain_room(p, a) {
        return Err(Refusal::BadParameter);
    }
    let base = picture::area_from(p, Area::Heap);
    let e = picture::area_upto(p, Area::Heap);
    freeing::sweep(p, base, e, 0, block_before(a));
    clear_registers(d);
    Ok(())
}

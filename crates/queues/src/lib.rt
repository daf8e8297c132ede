// The ring of bytes in the room of a queue's block, the block at longword i.
#![tactic(auto)]

ghost use Rattle.std.specs.Prelude.{◌≡◌, true, false, ◌+◌, ◌<◌, ◌≤◌};
ghost use Rattle.blocks.specs.Header.{queue_oldest};
ghost use Rattle.queues.specs.Bytes.{byte_at, with_byte_at};
ghost use Rattle.queues.specs.Ring.{Ring, index, waits, full, oldest_byte, fetched, sent};

use blocks::{QUEUE_BYTES, QUEUE_COUNT, QUEUE_LENGTH, QUEUE_OLDEST};
use words::{put, word};

// Byte j of the queue.
pub fn read_byte(p: &[u32], i: usize, j: usize) -> u32
    requires { (i < 8589934592) × (j < 8589934592) }
    ensures { result ≡ byte_at p.now i j }
{
    let bytes = word(p, i + QUEUE_BYTES + j / 4).to_be_bytes();
    u32::from(bytes[j % 4])
}

// Stores b as byte j of the queue.
pub fn write_byte(p: &mut [u32], i: usize, j: usize, b: u32)
    requires { ((i < 8589934592) × (j < 8589934592)) × (b < 256) }
    ensures { p.new ≡ with_byte_at p.old i j b }
{
    let at = i + QUEUE_BYTES + j / 4;
    let mut bytes = word(p, at).to_be_bytes();
    bytes[j % 4] = b as u8;
    put(p, at, u32::from_be_bytes(bytes));
}

// The index of the byte that j others come before, round at the queue's length.
pub fn index_of(p: &[u32], i: usize, j: usize) -> usize
    requires { (i < 8589934592) × (j < 8589934592) }
    ensures { result ≡ index p.now i j }
{
    let n = word(p, i + QUEUE_LENGTH) as usize;
    let x = word(p, i + QUEUE_OLDEST) as usize + j;
    if x < n {
        return x;
    }
    x - n
}

// A byte waits.
pub fn is_waiting(p: &[u32], i: usize) -> bool
    requires { i < 8589934592 }
    ensures { result ≡ waits p.now i }
{
    1 <= word(p, i + QUEUE_COUNT)
}

// The queue is full.
pub fn is_full(p: &[u32], i: usize) -> bool
    requires { i < 8589934592 }
    ensures { result ≡ full p.now i }
{
    word(p, i + QUEUE_LENGTH) <= word(p, i + QUEUE_COUNT)
}

// The oldest byte.
pub fn oldest_of(p: &[u32], i: usize) -> u32
    requires { i < 8589934592 }
    ensures { result ≡ oldest_byte p.now i }
{
    read_byte(p, i, word(p, i + QUEUE_OLDEST) as usize)
}

// Takes the oldest byte off the queue.
pub fn take_oldest(p: &mut [u32], i: usize)
    requires { (i < 8589934592) × (Ring p.old i × (waits p.old i ≡ true)) }
    ensures { p.new ≡ fetched p.old i }
{
    let next = index_of(p, i, 1);
    let count = word(p, i + QUEUE_COUNT);
    put(p, i + QUEUE_OLDEST, next as u32);
    put(p, i + QUEUE_COUNT, count - 1);
}

// Writes a byte behind the newest.
pub fn add_newest(p: &mut [u32], i: usize, b: u32)
    requires { ((i < 8589934592) × (b < 256)) × (Ring p.old i × (full p.old i ≡ false)) }
    ensures { p.new ≡ sent p.old i b }
{
    let count = word(p, i + QUEUE_COUNT);
    let j = index_of(p, i, count as usize);
    write_byte(p, i, j, b);
    put(p, i + QUEUE_COUNT, count + 1);
}

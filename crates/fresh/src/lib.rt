// A fresh picture.
#![tactic(auto)]

ghost use Rattle.std.specs.Prelude.{◌≡◌, ◌+◌, ◌≤◌, ◌<◌, length};
ghost use Rattle.picture.specs.Layout.{heap_base};
ghost use Rattle.picture.specs.Answers.{answer_key};
ghost use Rattle.fresh.specs.Fresh.{fresh, fresh_key, fresh_picture};

use picture::{Refusal, Table};
use words::put;

// Job 0 starts at this priority.
const FIRST_PRIORITY: u32 = 32;

// Writes a fresh picture of n longwords, h of them the heap.
fn write_fresh(p: &mut [u32], n: u32, h: u32)
    requires { (length p.old ≡ n) × (n ≤ 16384) × (heap_base + h + 4 ≤ n) }
    ensures { p.new ≡ fresh n h }
{
    let transient = picture::HEAP_BASE + h as usize;
    words::clear(p, 0, n as usize);
    put(p, picture::SIZE_WORD, n);
    put(p, picture::HEAP_WORD, h);
    picture::put_members(p, Table::Jobs, 1);
    put(p, picture::FIRST_JOB + picture::OWNER, picture::NOBODY);
    put(p, picture::FIRST_JOB + picture::PRIORITY, FIRST_PRIORITY);
    put(p, picture::HEAP_BASE, h * 4);
    put(p, transient, (n - transient as u32) * 4);
}

// Makes the lent picture fresh, or refuses bad sizes.
pub fn make_fresh(p: &mut [u32], n: u32, h: u32) -> Result<(), Refusal>
    ensures { (answer_key result ≡ fresh_key p.old n h) × (p.new ≡ fresh_picture p.old n h) }
{
    if p.len() != n as usize {
        return Err(Refusal::OutOfRange);
    }
    if !sound_whole::size_within(n as usize) {
        return Err(Refusal::OutOfRange);
    }
    if !sound_whole::heap_within(n as usize, h as usize) {
        return Err(Refusal::OutOfRange);
    }
    write_fresh(p, n, h);
    Ok(())
}

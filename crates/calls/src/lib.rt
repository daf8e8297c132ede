// What the calls share: the registers, the number that is meant, and writes to a record.
#![tactic(auto)]

ghost use Rattle.std.specs.Prelude.{◌≡◌, ◌<◌};
ghost use Rattle.picture.specs.Layout.{positions, width};
ghost use Rattle.picture.specs.Records.{with_field, with_timeout};
ghost use Rattle.picture.specs.declared.Table.TheVariants.{Jobs};
ghost use Rattle.calls.specs.Registers.{meant, caller};
ghost use Rattle.calls.specs.Writes.{with_nobody};

use picture::{JobNumber, Table};
use words::word;

// The registers' places.
pub const D0: usize = 0;

pub const D1: usize = 1;

pub const D2: usize = 2;

pub const D3: usize = 3;

pub const A0: usize = 4;

pub const A1: usize = 5;

pub const REGISTERS: usize = 8;

// The number of the current job.
pub fn caller_of(p: &[u32]) -> u32
    ensures { result ≡ caller p.now }
{
    word(p, picture::CURRENT_WORD)
}

// The job number that a register means: with bit 15 of the low word set, the current job's.
#[tactic(auto, unfolding(crate::specs::Registers::meant))]
pub fn number_meant(p: &[u32], n: u32) -> JobNumber
    ensures { result.0 ≡ meant p.now n }
{
    if words::is_set(n, 15) {
        return JobNumber(caller_of(p));
    }
    JobNumber(n)
}

// Stores v in field f of the record of position k.
pub fn put_field(p: &mut [u32], t: Table, k: usize, f: usize, v: u32)
    requires { (k < positions t) × (f < width t) }
    ensures { p.new ≡ with_field p.old t k f v }
{
    words::put(p, picture::slot_of(t, k) + f, v);
}

// Stores the timeout of the job at position k.
pub fn put_timeout(p: &mut [u32], k: usize, timeout: i32)
    requires { k < positions Jobs }
    ensures { p.new ≡ with_timeout p.old k timeout }
{
    put_field(p, Table::Jobs, k, picture::TIMEOUT, words::bits_of(timeout));
}

// Leaves nobody current.
pub fn put_nobody(p: &mut [u32])
    ensures { p.new ≡ with_nobody p.old }
{
    words::put(p, picture::CURRENT_WORD, picture::NOBODY);
}

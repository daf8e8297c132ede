// The call that creates a job.
#![tactic(auto)]

ghost use Rattle.std.specs.Prelude.{◌≡◌, true, ◌<◌};
ghost use Rattle.picture.specs.Layout.{greatest_size};
ghost use Rattle.picture.specs.Answers.{answer_key};
ghost use Rattle.sound.specs.Sound.{sound};
ghost use Rattle.calls.specs.Outcome.{Meets};
ghost use Rattle.calls.specs.Call.{outcome};
ghost use Rattle.creating.specs.Create.{negative, owner_found, job_registers, create};

use calls::{A0, A1, D1, D2, D3};
use headers::Block;
use picture::{Area, JobNumber, Refusal, Table};
use words::{put, word};

// A job's data space has at least this many bytes.
const LEAST_DATA: u32 = 4;

// A register that is negative as a long.
pub fn is_negative(n: u32) -> bool
    ensures { result ≡ negative n }
{
    0x8000_0000 <= n
}

// The owner of a job that is created with n in D1, none where n is no live job's number.
#[tactic(auto, using(crate::proofs::Ways::found_nobody, crate::proofs::Ways::found_dead, calls::proofs::Found::job_dead))]
pub fn owner_for(p: &[u32], n: u32) -> Option<u32>
    ensures { result ≡ owner_found p.now n }
{
    if is_negative(n) {
        return Some(picture::NOBODY);
    }
    let Some(_) = picture::entry_at(p, JobNumber(n)) else {
        return None;
    };
    Some(n)
}

// D1 is the number, A0 the first byte of room of the block at i.
#[tactic(auto, unfolding(crate::specs::Create::job_registers))]
pub fn answer_job(d: &mut [u32], number: u32, i: usize)
    requires { i < greatest_size }
    ensures { d.new ≡ job_registers number i d.old }
{
    put(d, D1, number);
    put(d, A0, rooms::first_byte(i));
}

// $1: creates a job.
pub fn create(p: &mut [u32], d: &mut [u32]) -> Result<(), Refusal>
    requires { sound p.old ≡ true }
    ensures { Meets (outcome create p.old d.old) (answer_key result) p.new d.new }
{
    let Some(owner) = owner_for(p, word(d, D1)) else {
        return Err(Refusal::InvalidJob);
    };
    let data = word(d, D3);
    if data < LEAST_DATA {
        return Err(Refusal::BadParameter);
    }
    let k = picture::free_position(p, Table::Jobs);
    if picture::JOBS <= k {
        return Err(Refusal::InvalidJob);
    }
    let last = picture::word_at(p, picture::last_of(Table::Jobs));
    if picture::GREATEST_TAG <= last {
        return Err(Refusal::InvalidJob);
    }
    let length = rooms::block_length(word(d, D2) as u64 + data as u64);
    let start = word(d, A1);
    let block = Block {
        kind: blocks::JOB,
        owner,
        start,
    };
    let Some(i) = rooms::place_in(p, Area::Transient, length, block) else {
        return Err(Refusal::OutOfMemory);
    };
    entering::enter(p, Table::Jobs, k, last + 1, owner, rooms::header_byte(i));
    answer_job(d, picture::number_of(last + 1, k), i);
    Ok(())
}

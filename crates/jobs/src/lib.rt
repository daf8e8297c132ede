// Calls that read who is current and that change a job's turn: $0, $8 to $B.
#![tactic(auto)]

ghost use Rattle.calls.specs.Outcome.{Meets};
ghost use Rattle.calls.specs.Call.{outcome};
ghost use Rattle.picture.specs.Answers.{answer_key};
ghost use Rattle.jobs.specs.Calls.{information, suspend, release, activate, set_priority};

use picture::Refusal;
use words::word;

// The ASCII version that $0 answers.
const VERSION: u32 = 0x312E_3030;

// $0: who is current.
pub fn information(p: &mut [u32], d: &mut [u32]) -> Result<(), Refusal>
    ensures { Meets (outcome information p.old d.old) (answer_key result) p.new d.new }
{
    words::put(d, calls::D1, calls::caller_of(p));
    words::put(d, calls::D2, VERSION);
    words::put(d, calls::A0, 0);
    Ok(())
}

// $8: suspends a job.
pub fn suspend(p: &mut [u32], d: &mut [u32]) -> Result<(), Refusal>
    ensures { Meets (outcome suspend p.old d.old) (answer_key result) p.new d.new }
{
    let number = calls::number_meant(p, word(d, calls::D1));
    let Some(k) = picture::entry_at(p, number) else {
        return Err(Refusal::InvalidJob);
    };
    let t = timeouts::timeout_in(word(d, calls::D3));
    if !(effects::is_suspension(t) & (word(d, calls::A1) == 0)) {
        return Err(Refusal::BadParameter);
    }
    effects::put_suspension(p, k, timeouts::value_of(t));
    calls::put_nobody(p);
    effects::name_job(d, number.0, k);
    Ok(())
}

// $9: releases a job.
pub fn release(p: &mut [u32], d: &mut [u32]) -> Result<(), Refusal>
    ensures { Meets (outcome release p.old d.old) (answer_key result) p.new d.new }
{
    let number = calls::number_meant(p, word(d, calls::D1));
    let Some(k) = picture::entry_at(p, number) else {
        return Err(Refusal::InvalidJob);
    };
    effects::put_release(p, k);
    calls::put_nobody(p);
    effects::name_job(d, number.0, k);
    Ok(())
}

// $A: activates a job, for which the caller may wait.
pub fn activate(p: &mut [u32], d: &mut [u32]) -> Result<(), Refusal>
    ensures { Meets (outcome activate p.old d.old) (answer_key result) p.new d.new }
{
    let number = calls::number_meant(p, word(d, calls::D1));
    let Some(k) = picture::entry_at(p, number) else {
        return Err(Refusal::InvalidJob);
    };
    if picture::is_active(p, k) {
        return Err(Refusal::NotComplete);
    }
    let priority = word(d, calls::D2) % 256;
    if !((1 <= priority) & (priority <= picture::GREATEST_PRIORITY)) {
        return Err(Refusal::BadParameter);
    }
    let t = timeouts::timeout_in(word(d, calls::D3));
    if !effects::is_wait_good(t, number.0) {
        return Err(Refusal::BadParameter);
    }
    let c = picture::position_of(calls::caller_of(p));
    effects::put_priority(p, k, priority);
    effects::put_wait(p, t, c, number.0);
    calls::put_nobody(p);
    effects::name_job(d, number.0, k);
    Ok(())
}

// $B: sets a job's priority.
pub fn set_priority(p: &mut [u32], d: &mut [u32]) -> Result<(), Refusal>
    ensures { Meets (outcome set_priority p.old d.old) (answer_key result) p.new d.new }
{
    let number = calls::number_meant(p, word(d, calls::D1));
    let Some(k) = picture::entry_at(p, number) else {
        return Err(Refusal::InvalidJob);
    };
    let priority = word(d, calls::D2) % 256;
    if picture::GREATEST_PRIORITY < priority {
        return Err(Refusal::BadParameter);
    }
    effects::put_priority(p, k, priority);
    calls::put_nobody(p);
    effects::name_job(d, number.0, k);
    Ok(())
}

// The manager's whole public face (its keys are numbers, as docs/DECISIONS.md 27 and hosts in C want them): one door for every trap call, a fresh picture, the pick, the tick, the report of a tree, and the text of an error.
#![tactic(auto)]

use picture::Refusal;
use turns::Picked;
use words::word;

// The report of a tree, which changes no picture (report_table).
ghost use Rattle.std.specs.Prelude.{◌≡◌};
ghost use Rattle.calls.specs.Outcome.{Meets};
ghost use Rattle.calls.specs.Call.{outcome};
ghost use Rattle.picture.specs.Answers.{answer_key};
ghost use Rattle.fresh.specs.Fresh.{fresh_key, fresh_picture};
ghost use Rattle.errors.specs.Text.{Answer, spot_of, error_key};
ghost use Rattle.manager.specs.Door.{called, checked};
ghost use Rattle.manager.specs.Turn.{ticking, pick_picture, pick_answer, tick_key};

pub use report_lines::JobLine;
pub use report_table::{Report, report_tree};

// The picture, then nobody current, then an unknown trap or call, then the call.
fn answer_call(p: &mut [u32], trap: u32, d: &mut [u32], name: &[u8]) -> Result<(), Refusal>
    ensures { Meets (outcome (checked trap name.now) p.old d.old) (answer_key result) p.new d.new }
{
    if !sound::is_sound(p) {
        return Err(Refusal::NotSound);
    }
    if calls::caller_of(p) == picture::NOBODY {
        return Err(Refusal::InvalidJob);
    }
    let code = word(d, calls::D0);
    match trap {
        1 => traps::trap_one(p, code, d),
        2 => traps::trap_two(p, code, d, name),
        3 => traps::trap_three(p, code, d),
        _ => Err(Refusal::BadParameter),
    }
}

// A trap call: its key, which D0 gets too; the picture and the registers are changed in place.
pub fn call(p: &mut [u32], trap: u32, d: &mut [u32], name: &[u8]) -> i32
    ensures { Meets (called trap p.old d.old name.now) result p.new d.new }
{
    if d.len() != calls::REGISTERS {
        return picture::BAD_PARAMETER;
    }
    let key = picture::key_of(answer_call(p, trap, d, name));
    words::put(d, calls::D0, words::bits_of(key));
    key
}

// Makes the lent picture fresh, with n longwords and a heap of h, or refuses bad sizes.
pub fn fresh(p: &mut [u32], n: u32, h: u32) -> i32
    ensures { (result ≡ fresh_key p.old n h) × (p.new ≡ fresh_picture p.old n h) }
{
    picture::key_of(fresh::make_fresh(p, n, h))
}

// The pick: gives one ready job its turn.
pub fn pick(p: &mut [u32]) -> Picked
    ensures { (result ≡ pick_answer p.old) × (p.new ≡ pick_picture p.old) }
{
    let may_pick = sound::is_sound(p);
    if !may_pick {
        return Picked {
            number: picture::NOBODY,
            key: picture::NOT_SOUND,
        };
    }
    turns::pick_turn(p)
}

// The tick: a frame passes.
pub fn tick(p: &mut [u32]) -> i32
    ensures { (result ≡ tick_key p.old) × (p.new ≡ ticking p.old) }
{
    let may_tick = sound::is_sound(p);
    if !may_tick {
        return picture::NOT_SOUND;
    }
    turns::tick_frame(p);
    picture::DONE
}

// The text of a key: a part of one of the two texts lent.
pub fn error_text<'a>(key: i32, system: &'a [u8], driver: &'a [u8]) -> &'a [u8]
    ensures { Answer (spot_of key system.now driver.now) system.entry driver.entry result }
{
    errors::error_text(key, system, driver)
}

// The key of that answer: 0, or -7 where there is no such text.
pub fn error_key(key: i32, system: &[u8], driver: &[u8]) -> i32
    ensures { result ≡ error_key key system.now driver.now }
{
    errors::error_key(key, system, driver)
}

// The calls of the three traps, each by all 32 bits of D0, on a sound picture.
#![tactic(auto)]

ghost use Rattle.std.specs.Prelude.{◌≡◌, true};
ghost use Rattle.calls.specs.Outcome.{Meets};
ghost use Rattle.calls.specs.Call.{outcome};
ghost use Rattle.sound.specs.Sound.{sound};
ghost use Rattle.picture.specs.Answers.{answer_key};
ghost use Rattle.traps.specs.Traps.{trap_one, trap_two, trap_three};

use picture::Refusal;

// Trap 1, by all 32 bits of D0. The caller's longword is any number at all: a match over the guide's codes is the table of calls, which an enum of them
// would write a second time, and functions in a table would have to be found by the same match.
pub fn trap_one(p: &mut [u32], code: u32, d: &mut [u32]) -> Result<(), Refusal>
    requires { sound p.old ≡ true }
    ensures { Meets (outcome (trap_one code) p.old d.old) (answer_key result) p.new d.new }
{
    match code {
        0x0 => jobs::information(p, d),
        0x1 => creating::create(p, d),
        0x2 => asking::ask(p, d),
        0x4 => ending::remove(p, d),
        0x5 => ending::force_remove(p, d),
        0x6 => memory::longest_room(p, d),
        0x8 => jobs::suspend(p, d),
        0x9 => jobs::release(p, d),
        0xA => jobs::activate(p, d),
        0xB => jobs::set_priority(p, d),
        0x18 => memory::take(p, d),
        0x19 => memory::give_back(p, d),
        _ => Err(Refusal::BadParameter),
    }
}

// Trap 2, by all 32 bits of D0.
pub fn trap_two(p: &mut [u32], code: u32, d: &mut [u32], name: &[u8]) -> Result<(), Refusal>
    requires { sound p.old ≡ true }
    ensures { Meets (outcome (trap_two code name.now) p.old d.old) (answer_key result) p.new d.new }
{
    match code {
        0x1 => opening::open_channel(p, d, name),
        0x2 => channels::close_channel(p, d),
        _ => Err(Refusal::BadParameter),
    }
}

// Trap 3, by all 32 bits of D0.
pub fn trap_three(p: &mut [u32], code: u32, d: &mut [u32]) -> Result<(), Refusal>
    requires { sound p.old ≡ true }
    ensures { Meets (outcome (trap_three code) p.old d.old) (answer_key result) p.new d.new }
{
    match code {
        0x0 => channels::pending(p, d),
        0x1 => channels::fetch(p, d),
        0x5 => channels::send(p, d),
        _ => Err(Refusal::BadParameter),
    }
}

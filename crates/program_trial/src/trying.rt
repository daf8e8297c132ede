ghost use Rattle.std.specs.Prelude.{◌≤◌, length};

use crate::{Answer, report, reporting, room, telling};
use program_fields::{Call, Trial};

// The answer of a call that has a key alone.
fn answer_of(key: i32) -> Answer {
    Answer {
        key: words::bits_of(key),
        number: None,
    }
}

// Makes a call by its trap, with the name that stands in the call field.
fn make_trap(p: &mut [u32], trap: u32, registers: &mut [u32], field: &[u8]) -> Answer {
    let mut name = [0; room::NAME];
    let count = program_fields::read_name(field, &mut name);
    answer_of(manager::call(p, trap, registers, &name[..count]))
}

// Makes a pick.
fn make_pick(p: &mut [u32]) -> Answer {
    let picked = manager::pick(p);
    Answer {
        key: words::bits_of(picked.key),
        number: Some(picked.number),
    }
}

// Makes a call.
fn make_call(p: &mut [u32], call: Call, registers: &mut [u32], field: &[u8]) -> Answer {
    match call {
        Call::Trap(trap) => make_trap(p, trap, registers, field),
        Call::Pick => make_pick(p),
        Call::Tick => answer_of(manager::tick(p)),
        Call::Fresh { size, heap } => answer_of(manager::fresh(p, size, heap)),
    }
}

// Makes a trial's call on a picture and answers it. The picture before it is kept in a room of this function, so only a line that makes a call pays for one.
fn try_call(p: &mut [u32], call: Call, registers: &mut [u32], field: &[u8], out: &mut [u8]) -> usize
    requires { length p.old ≤ 16400 }
{
    let mut kept = [0; room::PICTURE];
    let before = &mut kept[..p.len()];
    before.copy_from_slice(p);
    let answer = make_call(p, call, registers, field);
    report::write_answer(p, before, answer, registers, out)
}

// Answers a line that asks for a call or a report.
pub fn answer_call(line: &[u8], out: &mut [u8]) -> usize {
    let mut p = [0; room::PICTURE];
    let mut registers = [0; room::REGISTERS];
    match program_fields::read_trial(&mut p, line, &mut registers) {
        Some(
            Trial::Call {
                call,
                characters,
                registers: count,
                size,
            },
        ) => try_call(
            &mut p[..size],
            call,
            &mut registers[..count],
            &line[..characters],
            out,
        ),
        Some(Trial::Report { top, lent, size }) => {
            reporting::answer_report(&p[..size], top, lent, out)
        }
        None => telling::write_refusal(out),
    }
}

// Input and output in large pieces, and what is said where a read or a write fails.
#![tactic(auto)]

ghost use Rattle.std.specs.Prelude.{◌≡◌, ◌≤◌, length, IfOk};
ghost use Rattle.program_pieces.specs.declared.Stopped.TheVariants.{Input, Output};

use std::fmt;
use std::io::{Read, Write};

// A read failed.
#[derive(Clone, Copy, Debug)]
pub struct Unread;

// A write failed.
#[derive(Clone, Copy, Debug)]
pub struct Unwritten;

// Why a run stops before all of its input is answered.
#[derive(Clone, Copy, Debug)]
pub enum Stopped {
    Input,
    Output,
}

impl From<Unread> for Stopped {
    ghost from_gives = { λ _ stopped. stopped ≡ Input };

    fn from(_unread: Unread) -> Self {
        Self::Input
    }
}

impl From<Unwritten> for Stopped {
    ghost from_gives = { λ _ stopped. stopped ≡ Output };

    fn from(_unwritten: Unwritten) -> Self {
        Self::Output
    }
}

impl fmt::Display for Stopped {
    fn fmt<W: fmt::Write>(&self, f: &mut fmt::Formatter<W>) -> fmt::Result {
        f.write_str(match self {
            Stopped::Input => "the input could not be read to its end.",
            Stopped::Output => "the output could not be written; answers from here on are lost.",
        })
    }
}

// How long a room for a large piece of input, or of output, is.
pub const LARGE: usize = 65536;

// Reads characters of standard input into the start of a room, and answers how many: none at the end of input.
pub fn read_in(rt: &HostRuntime, room: &mut [u8]) -> Result<usize, Unread>
    ensures { IfOk result (λ got. got ≤ length room.new) }
{
    rt.stdin().read(room).map_err(|_| Unread)
}

// Writes out a text.
pub fn write_out(rt: &HostRuntime, text: &[u8]) -> Result<(), Unwritten> {
    rt.stdout().write_all(text).map_err(|_| Unwritten)
}

// Says on standard error why a program stopped, as far as that can be written.
pub fn say(rt: &HostRuntime, program: &str, stopped: Stopped) {
    let _ = eprintln!(rt; "{program}: {stopped}");
}

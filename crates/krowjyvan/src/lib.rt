// The manager's public face for a hub that isn't in Rattle: the functions that include/krowjyvan.h declares, which krowjyvan_c exports.
// A lent slice is a pointer and a length there; nothing is asked of lengths or contents, and nothing is kept between calls.
#![tactic(auto)]

ghost use Rattle.std.specs.Prelude.{◌≡◌, ◌*◌, ◌≤◌, ◌<◌, length};
ghost use Rattle.std.proofs.lemmas.List.Edits.{sets};
ghost use Rattle.calls.specs.Outcome.{Meets};
ghost use Rattle.fresh.specs.Fresh.{fresh_key, fresh_picture};
ghost use Rattle.errors.specs.Text.{spot_of, error_key};
ghost use Rattle.report_lines.specs.Report.{report_key, report_lines as reportLines, lines_left};
ghost use Rattle.report_table.specs.Longwords.{line_longwords};
ghost use Rattle.manager.specs.Door.{called};
ghost use Rattle.manager.specs.Turn.{ticking, pick_picture, pick_answer, tick_key};
ghost use Rattle.krowjyvan.specs.Part.{part_of};
ghost use Rattle.krowjyvan.specs.Lines.{lines_lent, lines_longwords};

use errors::{Part, Spot};
use report_lines::{JobLine, Lines, begin};
use report_table::longwords_of;

// manager::fresh.
pub fn krowjyvan_fresh(p: &mut [u32], n: u32, h: u32) -> i32
    ensures { (result ≡ fresh_key p.old n h) × (p.new ≡ fresh_picture p.old n h) }
{
    manager::fresh(p, n, h)
}

// manager::call.
pub fn krowjyvan_call(p: &mut [u32], trap: u32, d: &mut [u32], name: &[u8]) -> i32
    ensures { Meets (called trap p.old d.old name.now) result p.new d.new }
{
    manager::call(p, trap, d, name)
}

// manager::pick: the key is returned, and the number goes into a lent longword.
pub fn krowjyvan_pick(p: &mut [u32], number: &mut u32) -> i32
    ensures { (result ≡ (pick_answer p.old).key) × ((number.new ≡ (pick_answer p.old).number) × (p.new ≡ pick_picture p.old)) }
{
    let picked = manager::pick(p);
    *number = picked.number;
    picked.key
}

// manager::tick.
pub fn krowjyvan_tick(p: &mut [u32]) -> i32
    ensures { (result ≡ tick_key p.old) × (p.new ≡ ticking p.old) }
{
    manager::tick(p)
}

// manager::report_tree, in a table of longwords, five a line: the key is returned, and how many lines were written goes into a lent
// number. The longwords behind those lines keep what they held.
pub fn krowjyvan_report_tree(p: &[u32], top: u32, lines: &mut [u32], count: &mut usize) -> i32
    ensures { (result ≡ report_key p.now top (lines_lent lines.old)) × ((count.new ≡ length (reportLines p.now top (lines_lent lines.old))) × (lines.new ≡ sets lines.old 0 (lines_longwords (reportLines p.now top (lines_lent lines.old))))) }
{
    let lent = lines.len() / 5;
    match begin(p, top, lent) {
        Ok(report) => {
            *count = report.count;
            put_lines(lines, report);
            picture::DONE
        }
        Err(refusal) => {
            *count = 0;
            i32::from(refusal)
        }
    }
}

// manager::error_text and manager::error_key: the key is returned, and where the part starts in its text and how many characters it
// has go into lent numbers.
pub fn krowjyvan_error_text(
    key: i32,
    system: &[u8],
    driver: &[u8],
    start: &mut usize,
    count: &mut usize,
) -> i32
    ensures { (result ≡ error_key key system.now driver.now) × ((start.new ≡ (part_of (spot_of key system.now driver.now)).start) × (count.new ≡ (part_of (spot_of key system.now driver.now)).count)) }
{
    let part = part_in(errors::spot_of(key, system, driver));
    *start = part.start;
    *count = part.count;
    manager::error_key(key, system, driver)
}

// The part of its text at a spot; nowhere is the empty part at the start.
fn part_in(spot: Option<Spot>) -> Part
    ensures { result ≡ part_of spot }
{
    match spot {
        Some(Spot::System(part) | Spot::Driver(part)) => part,
        None => Part { start: 0, count: 0 },
    }
}

// The lines, stored from the table's start on.
#[tactic(auto, using(crate::proofs::Lines::line_stored, crate::proofs::Lines::none_stored))]
fn put_lines(table: &mut [u32], lines: Lines<'_>)
    requires { length (lines_left lines) ≤ lines_lent table.old }
    ensures { table.new ≡ sets table.old 0 (lines_longwords (lines_left lines.entry)) }
{
    for (i, line) in lines.enumerate() {
        put_line(table, i, line);
    }
}

// A line, stored as line i.
fn put_line(table: &mut [u32], i: usize, line: JobLine)
    requires { i < lines_lent table.old }
    ensures { table.new ≡ sets table.old (5 * i) (line_longwords line) }
{
    table[5 * i..5 * i + 5].copy_from_slice(&longwords_of(line));
}

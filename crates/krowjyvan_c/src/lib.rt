// The archive that a hub in C or Rust links, libkrowjyvan.a: each function of krowjyvan under its name, by C's calling convention.
#![tactic(auto)]

ghost use Rattle.std.specs.Prelude.{◌≡◌, length};
ghost use Rattle.std.proofs.lemmas.List.Edits.{sets};
ghost use Rattle.calls.specs.Outcome.{Meets};
ghost use Rattle.fresh.specs.Fresh.{fresh_key, fresh_picture};
ghost use Rattle.errors.specs.Text.{spot_of, error_key};
ghost use Rattle.report_lines.specs.Report.{report_key, report_lines as reportLines};
ghost use Rattle.manager.specs.Door.{called};
ghost use Rattle.manager.specs.Turn.{ticking, pick_picture, pick_answer, tick_key};
ghost use Rattle.krowjyvan.specs.Part.{part_of};
ghost use Rattle.krowjyvan.specs.Lines.{lines_lent, lines_longwords};

// krowjyvan::krowjyvan_fresh.
#[unsafe(no_mangle)]
pub extern "C" fn krowjyvan_fresh(p: &mut [u32], n: u32, h: u32) -> i32
    ensures { (result ≡ fresh_key p.old n h) × (p.new ≡ fresh_picture p.old n h) }
{
    krowjyvan::krowjyvan_fresh(p, n, h)
}

// krowjyvan::krowjyvan_call.
#[unsafe(no_mangle)]
pub extern "C" fn krowjyvan_call(p: &mut [u32], trap: u32, d: &mut [u32], name: &[u8]) -> i32
    ensures { Meets (called trap p.old d.old name.now) result p.new d.new }
{
    krowjyvan::krowjyvan_call(p, trap, d, name)
}

// krowjyvan::krowjyvan_pick.
#[unsafe(no_mangle)]
pub extern "C" fn krowjyvan_pick(p: &mut [u32], number: &mut u32) -> i32
    ensures { (result ≡ (pick_answer p.old).key) × ((number.new ≡ (pick_answer p.old).number) × (p.new ≡ pick_picture p.old)) }
{
    krowjyvan::krowjyvan_pick(p, number)
}

// krowjyvan::krowjyvan_tick.
#[unsafe(no_mangle)]
pub extern "C" fn krowjyvan_tick(p: &mut [u32]) -> i32
    ensures { (result ≡ tick_key p.old) × (p.new ≡ ticking p.old) }
{
    krowjyvan::krowjyvan_tick(p)
}

// krowjyvan::krowjyvan_report_tree.
#[unsafe(no_mangle)]
pub extern "C" fn krowjyvan_report_tree(
    p: &[u32],
    top: u32,
    lines: &mut [u32],
    count: &mut usize,
) -> i32
    ensures { (result ≡ report_key p.now top (lines_lent lines.old)) × ((count.new ≡ length (reportLines p.now top (lines_lent lines.old))) × (lines.new ≡ sets lines.old 0 (lines_longwords (reportLines p.now top (lines_lent lines.old))))) }
{
    krowjyvan::krowjyvan_report_tree(p, top, lines, count)
}

// krowjyvan::krowjyvan_error_text.
#[unsafe(no_mangle)]
pub extern "C" fn krowjyvan_error_text(
    key: i32,
    system: &[u8],
    driver: &[u8],
    start: &mut usize,
    count: &mut usize,
) -> i32
    ensures { (result ≡ error_key key system.now driver.now) × ((start.new ≡ (part_of (spot_of key system.now driver.now)).start) × (count.new ≡ (part_of (spot_of key system.now driver.now)).count)) }
{
    krowjyvan::krowjyvan_error_text(key, system, driver, start, count)
}

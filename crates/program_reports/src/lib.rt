// The report of a tree as a session writes it: a line for each member, or the key alone.
#![tactic(auto)]

ghost use Rattle.std.specs.Prelude.{◌≡◌, ◌++◌, map, [], ◌∷◌, ◌+◌, ◌*◌, ◌≤◌, length, take};
ghost use Rattle.words.specs.Signed.{bits};
ghost use Rattle.program_writing.specs.Texts.{answers_text};
ghost use Rattle.report_table.specs.Longwords.{line_longwords};
ghost use Rattle.program_reports.specs.Reports.{reported, line_width, longest_report};

use picture::JOBS;
use program_writing::write_answer;
use report_lines::JobLine;
use report_table::longwords_of;

// What a line of the table holds before it is lent.
fn blank() -> JobLine {
    JobLine {
        number: 0,
        owner: 0,
        depth: 0,
        priority: 0,
        suspended: false,
    }
}

// Puts lines behind what is used of the output's room, and answers how much is used then.
fn write_lines(lines: &[JobLine], out: &mut [u8], used: usize) -> usize
    requires { used + line_width * length lines.now ≤ length out.old }
    ensures { (result ≡ used + line_width * length lines.now) × (take result out.new ≡ take used out.old ++ answers_text (map line_longwords lines.now)) }
{
    let mut place = used;
    for line in lines {
        place = write_answer(out, place, &longwords_of(*line));
    }
    place
}

// Puts a key alone behind what is used, and answers how much is used then.
fn write_key(key: i32, out: &mut [u8], used: usize) -> usize
    requires { used + line_width ≤ length out.old }
    ensures { (result ≡ used + 9) × (take result out.new ≡ take used out.old ++ answers_text ((bits key ∷ []) ∷ [])) }
{
    write_answer(out, used, &[words::bits_of(key)])
}

// Reports the tree of the job `top` behind what is used of the output's room, and answers how much is used then.
pub fn write_report(p: &[u32], top: u32, out: &mut [u8], used: usize) -> usize
    requires { used + longest_report ≤ length out.old }
    ensures { (result ≤ used + longest_report) × (take result out.new ≡ take used out.old ++ answers_text (reported p.now top)) }
{
    let table = [blank(); 64];
    let lent = report_table::report_lent(p, top, table, JOBS);
    let report = lent.report;
    if report.key != picture::DONE {
        return write_key(report.key, out, used);
    }
    write_lines(&lent.lines[..report.count], out, used)
}

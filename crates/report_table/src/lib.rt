// The report of a tree, in a table of job lines that the caller lends.
#![tactic(auto)]

ghost use Rattle.std.specs.Prelude.{◌≡◌, ◌≤◌, length};
ghost use Rattle.std.proofs.lemmas.List.Edits.{sets};
ghost use Rattle.report_lines.specs.Report.{report_lines as reportLines, lines_left};
ghost use Rattle.report_table.specs.Answer.{report_answer};
ghost use Rattle.report_table.specs.Longwords.{line_longwords};

use report_lines::{JobLine, Lines};

// What a report answers: its key, and how many lines were written.
#[derive(Clone, Copy)]
pub struct Report {
    pub key: i32,
    pub count: usize,
}

// The tree of the job `top`: a line for each member in the table, whose later lines keep what they held.
#[tactic(auto, unfolding(crate::specs::Answer::report_answer))]
pub fn report_tree(p: &[u32], top: u32, table: &mut [JobLine]) -> Report
    ensures { (result ≡ report_answer p.now top (length table.old)) × (table.new ≡ sets table.old 0 (reportLines p.now top (length table.old))) }
{
    match report_lines::begin(p, top, table.len()) {
        Ok(lines) => {
            let count = lines.count;
            put_lines(table, lines);
            Report {
                key: picture::DONE,
                count,
            }
        }
        Err(refusal) => Report {
            key: i32::from(refusal),
            count: 0,
        },
    }
}

// The lines, stored from the table's start on.
fn put_lines(table: &mut [JobLine], lines: Lines<'_>)
    requires { length (lines_left lines) ≤ length table.old }
    ensures { table.new ≡ sets table.old 0 (lines_left lines.entry) }
{
    for (i, line) in lines.enumerate() {
        table[i] = line;
    }
}

// A report, and the lines of a table of 64 as they stand then.
#[derive(Clone, Copy)]
pub struct Lent {
    pub report: Report,
    pub lines: [JobLine; 64],
}

// The report with the first `lent` lines of a table of 64: for callers that have no table to lend.
pub fn report_lent(p: &[u32], top: u32, lines: [JobLine; 64], lent: usize) -> Lent
    requires { lent ≤ 64 }
    ensures { (result.report ≡ report_answer p.now top lent) × (result.lines ≡ sets lines 0 (reportLines p.now top lent)) }
{
    let mut table = lines;
    let report = report_tree(p, top, &mut table[..lent]);
    Lent {
        report: report,
        lines: table,
    }
}

// A line as five longwords, the last 1 where the job is suspended, else 0.
pub fn longwords_of(line: JobLine) -> [u32; 5]
    ensures { result ≡ line_longwords line }
{
    let suspended = line.suspended as u32;
    [
        line.number,
        line.owner,
        line.depth,
        line.priority,
        suspended,
    ]
}

ghost use Rattle.std.specs.Prelude.{◌≤◌};

use report_lines::JobLine;
use report_table::Report;

// What the first four fields of a lent line hold before a report, which writes no such longword.
const HELD: u32 = 0xAAAA_AAAA;

// A lent line before a report. Its last field is true.
fn held_line() -> JobLine {
    JobLine {
        number: HELD,
        owner: HELD,
        depth: HELD,
        priority: HELD,
        suspended: true,
    }
}

// One line: what stands before it, and its five fields.
fn write_line(mark: u8, line: JobLine, out: &mut [u8], used: usize) -> usize {
    let marked = program_writing::write_character(out, used, mark);
    let longwords = report_table::longwords_of(line);
    program_writing::write_words(out, marked, &longwords)
}

// The lent lines behind a blank, with commas between.
fn write_lines(lines: &[JobLine], out: &mut [u8], used: usize) -> usize {
    let mut place = used;
    let mut mark = b' ';
    for line in lines {
        place = write_line(mark, *line, out, place);
        mark = b',';
    }
    place
}

// The lent lines, as a field, `-` where there is none.
fn write_lent(lines: &[JobLine], out: &mut [u8], used: usize) -> usize {
    if lines.is_empty() {
        let start = program_writing::write_character(out, used, b' ');
        return program_writing::write_character(out, start, b'-');
    }
    write_lines(lines, out, used)
}

// Answers with a report's key, its count, which is at most 64, and the lent lines as they stand then.
fn write_report(report: Report, lines: &[JobLine], out: &mut [u8]) -> usize {
    let keyed = program_writing::write_number(out, 0, 8, words::bits_of(report.key));
    let apart = program_writing::write_character(out, keyed, b' ');
    let counted = program_writing::write_number(out, apart, 8, (report.count % 65536) as u32);
    let listed = write_lent(lines, out, counted);
    program_writing::write_character(out, listed, b'\n')
}

// Makes the report of the tree of the job `top` with so many lines lent, and answers with it.
pub fn answer_report(p: &[u32], top: u32, lent: usize, out: &mut [u8]) -> usize
    requires { lent ≤ 64 }
{
    let mut table = [held_line(); 64];
    let report = report_table::report_tree(p, top, &mut table[..lent]);
    write_report(report, &table[..lent], out)
}

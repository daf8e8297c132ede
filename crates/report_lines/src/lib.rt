// The lines of a report of a tree: where it begins, and one line with the number of the next member.
#![tactic(auto)]

ghost use Rattle.std.specs.Prelude.{◌≡◌, ◌<◌};
ghost use Rattle.std.specs.Iterator.{YieldsFirst, item_count};
ghost use Rattle.picture.specs.Numbers.{tag_weight};
ghost use Rattle.report_lines.specs.Line.{depth, line};
ghost use Rattle.report_lines.specs.Order.{size, next};
ghost use Rattle.report_lines.specs.Report.{lines_left, Begins};

use asking::next_member;
use picture::{JOBS, JobNumber, Refusal, entry_at};
use words::word;

// A job of the tree: its number, its owner's, its depth below the top, its priority, and whether it is suspended.
#[derive(Clone, Copy)]
pub struct JobLine {
    pub number: u32,
    pub owner: u32,
    pub depth: u32,
    pub priority: u32,
    pub suspended: bool,
}

// The lines of a report that are still to come: how many they are, the picture, the positions of the members and that of the top, and the
// number of the member whose line is the next.
#[derive(Clone, Copy)]
pub struct Lines<'a> {
    pub count: usize,
    picture: &'a [u32],
    pub members: u64,
    pub top: usize,
    number: u32,
}

impl<'a> Iterator for Lines<'a> {
    type Item = JobLine;

    ghost next_gives = { YieldsFirst lines_left };

    ghost remaining = { item_count lines_left };

    #[tactic(auto, using(crate::proofs::Order::lines_some, crate::proofs::Order::lines_none))]
    fn next(&mut self) -> Option<JobLine> {
        if self.count == 0 {
            return None;
        }
        let step = line_of(self.picture, self.members, self.top, self.number);
        self.number = step.next;
        self.count -= 1;
        Some(step.line)
    }
}

// A line, and the number of the member behind it.
#[derive(Clone, Copy)]
pub struct Step {
    pub line: JobLine,
    pub next: u32,
}

// How many steps from a job to its owner lead from position k up to position t.
fn depth_of(p: &[u32], t: usize, k: usize) -> u32
    requires { k < tag_weight }
    ensures { result ≡ depth p.now t k }
{
    let mut j = k;
    for n in 0..JOBS as u32 {
        if j == t {
            return n;
        }
        let owner = word(
            p,
            picture::FIRST_JOB + picture::JOB_WIDTH * j + picture::OWNER,
        );
        j = picture::position_of(owner);
    }
    JOBS as u32
}

// How many members a set has.
#[tactic(auto, unfolding(crate::specs::Order::size))]
fn size_of(members: u64) -> usize
    ensures { result ≡ size members }
{
    let mut n = 0;
    for k in 0..JOBS {
        n += usize::from(masks::is_member(members, k));
    }
    n
}

// Where the report of the tree of the job `top` begins, in a table of so many lines.
pub fn begin(p: &[u32], top: u32, lent: usize) -> Result<Lines<'_>, Refusal>
    ensures { Begins p.now top lent result }
{
    if !sound::is_sound(p) {
        return Err(Refusal::NotSound);
    }
    let Some(t) = entry_at(p, JobNumber(top)) else {
        return Err(Refusal::InvalidJob);
    };
    let members = tree::tree_of(p, t);
    let count = size_of(members);
    if lent < count {
        return Err(Refusal::BufferOverflow);
    }
    Ok(Lines {
        count,
        picture: p,
        members,
        top: t,
        number: top,
    })
}

// The line of the job of this number in the tree of the job at position t, and the next member's number.
#[tactic(auto, using(crate::proofs::Line::line_is), unfolding(crate::specs::Order::next))]
pub fn line_of(p: &[u32], members: u64, t: usize, number: u32) -> Step
    ensures { (result.line ≡ line p.now t number) × (result.next ≡ next p.now members number) }
{
    let k = picture::position_of(number);
    let record = picture::FIRST_JOB + picture::JOB_WIDTH * k;
    let line = JobLine {
        number: number,
        owner: word(p, record + picture::OWNER),
        depth: depth_of(p, t, k),
        priority: word(p, record + picture::PRIORITY),
        suspended: word(p, record + picture::TIMEOUT) != 0,
    };
    Step {
        line: line,
        next: next_member(p, members, picture::tag_of(number)),
    }
}

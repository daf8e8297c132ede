// What the calls $8 to $B do to a job's record, and what they answer.
#![tactic(auto)]

ghost use Rattle.std.specs.Prelude.{◌≡◌, ◌<◌};
ghost use Rattle.picture.specs.Layout.{positions};
ghost use Rattle.picture.specs.Numbers.{tag_weight};
ghost use Rattle.picture.specs.declared.Table.TheVariants.{Jobs};
ghost use Rattle.effects.specs.Effects.{naming, suspends, suspended, released, prioritized, may_wait, endless, waiting};

use picture::Table;
use timeouts::Timeout;

// Answers the job's number and its record's offset.
#[tactic(auto, unfolding(crate::specs::Effects::naming))]
pub fn name_job(d: &mut [u32], n: u32, k: usize)
    requires { k < positions Jobs }
    ensures { d.new ≡ naming n k d.old }
{
    words::put(d, calls::D1, n);
    words::put(d, calls::A0, (4 * picture::slot_of(Table::Jobs, k)) as u32);
}

// The timeout suspends a job: 1 to 32,767 frames, or without end.
pub fn is_suspension(t: Option<Timeout>) -> bool
    ensures { result ≡ suspends t }
{
    matches!(t, Some(Timeout::Frames(_) | Timeout::Endless))
}

// Suspends the job at a position with a timeout: it waits for nobody, and has neither turns nor a key due.
#[tactic(auto, unfolding(crate::specs::Effects::suspended))]
pub fn put_suspension(p: &mut [u32], position: usize, timeout: i32)
    requires { position < positions Jobs }
    ensures { p.new ≡ suspended p.old position timeout }
{
    calls::put_timeout(p, position, timeout);
    calls::put_field(p, Table::Jobs, position, picture::WAIT, 0);
    calls::put_field(p, Table::Jobs, position, picture::ACCUMULATED, 0);
    calls::put_field(p, Table::Jobs, position, picture::KEY, 0);
}

// Ends the suspension of the job at position k; a job that isn't suspended stays as it is.
#[tactic(auto, unfolding(crate::specs::Effects::released))]
pub fn put_release(p: &mut [u32], k: usize)
    requires { k < positions Jobs }
    ensures { p.new ≡ released p.old k }
{
    if picture::timeout_of(p, k) == 0 {
        return;
    }
    calls::put_timeout(p, k, 0);
    calls::put_field(p, Table::Jobs, k, picture::WAIT, 0);
    calls::put_field(p, Table::Jobs, k, picture::KEY, 0);
}

// Gives the job at position k a priority, and no turns due.
#[tactic(auto, unfolding(crate::specs::Effects::prioritized))]
pub fn put_priority(p: &mut [u32], k: usize, priority: u32)
    requires { k < positions Jobs }
    ensures { p.new ≡ prioritized p.old k priority }
{
    calls::put_field(p, Table::Jobs, k, picture::PRIORITY, priority);
    calls::put_field(p, Table::Jobs, k, picture::ACCUMULATED, 0);
}

// The timeout of an activation is good: 0, or without end for a job other than job 0.
pub fn is_wait_good(t: Option<Timeout>, n: u32) -> bool
    ensures { result ≡ may_wait t n }
{
    match t {
        Some(Timeout::Zero) => true,
        Some(Timeout::Endless) => n != 0,
        _ => false,
    }
}

// The timeout is without end.
pub fn is_endless(t: Option<Timeout>) -> bool
    ensures { result ≡ endless t }
{
    matches!(t, Some(Timeout::Endless))
}

// Where the timeout is without end, the caller at position c waits for the job with number n.
#[tactic(auto, unfolding(crate::specs::Effects::waiting))]
pub fn put_wait(p: &mut [u32], t: Option<Timeout>, c: usize, n: u32)
    requires { c < tag_weight }
    ensures { p.new ≡ waiting p.old t c n }
{
    if !is_endless(t) {
        return;
    }
    let slot = picture::FIRST_JOB + picture::JOB_WIDTH * c;
    words::put(
        p,
        slot + picture::TIMEOUT,
        words::bits_of(picture::WITHOUT_END),
    );
    words::put(p, slot + picture::ACCUMULATED, 0);
    words::put(p, slot + picture::WAIT, n);
}

// Turns: the pick, which gives one job its turn, and the tick of a frame. Both take any contents that have their tables.
#![tactic(auto)]

ghost use Rattle.std.specs.Prelude.{◌≡◌, ◌+◌, ◌<◌, ◌≤◌, min, length};
ghost use Rattle.picture.specs.Layout.{positions};
ghost use Rattle.picture.specs.Records.{accumulated_field};
ghost use Rattle.picture.specs.declared.Table.TheVariants.{Jobs};
ghost use Rattle.picture.specs.Layout.{hold, heap_base};
ghost use Rattle.turns.specs.Fields.{set_each};
ghost use Rattle.turns.specs.Pick.{preferred, chosen_job, accumulated_after, picked, answer};
ghost use Rattle.turns.specs.Tick.{fallen, ticked};

use picture::{
    ACCUMULATED, CURRENT_WORD, DONE, HOLD, JOBS, KEY, NOBODY, NUMBER, PRIORITY, TIMEOUT, Table,
};
use picture_tables::{Tables, put_field};
use words::{bits_of, put, signed_of};

// What a pick answers: the number of the job picked, and its key to deliver.
#[derive(Clone, Copy)]
pub struct Picked {
    pub number: u32,
    pub key: i32,
}

// The job at m, or the one at position k where that is ready and has accumulated more.
fn preferred(p: &Tables<'_>, m: usize, k: usize) -> usize
    requires { (k < positions Jobs) × (m ≤ positions Jobs) }
    ensures { result ≡ preferred p.now m k }
{
    if !p.is_ready(k) {
        return m;
    }
    if m == JOBS {
        return k;
    }
    if p.field_of(Table::Jobs, m, ACCUMULATED) < p.field_of(Table::Jobs, k, ACCUMULATED) {
        return k;
    }
    m
}

// The position of the job that the pick takes, the number of positions for nobody.
pub fn chosen_job(p: &Tables<'_>) -> usize
    ensures { (result ≡ chosen_job p.now) × (result ≤ positions Jobs) }
{
    let mut m = JOBS;
    for k in 0..JOBS {
        m = preferred(p, m, k);
    }
    m
}

// The priority on top of the accumulated, held.
fn gained(accumulated: u32, priority: u32) -> u32
    ensures { result ≡ min hold (accumulated + priority) }
{
    if HOLD <= accumulated {
        return HOLD;
    }
    if HOLD - accumulated <= priority {
        return HOLD;
    }
    accumulated + priority
}

// What position k has accumulated once the job at m was picked.
fn accumulated_after(p: &Tables<'_>, m: usize, k: usize) -> u32
    requires { k < positions Jobs }
    ensures { result ≡ accumulated_after p.now m k }
{
    if k == m {
        return 0;
    }
    let accumulated = p.field_of(Table::Jobs, k, ACCUMULATED);
    if !p.is_ready(k) {
        return accumulated;
    }
    gained(accumulated, p.field_of(Table::Jobs, k, PRIORITY))
}

// Every ready job but the one at m gains, and m's accumulated is 0.
fn give_gains(p: &mut [u32], m: usize)
    requires { heap_base ≤ length p.old }
    ensures { p.new ≡ set_each p.old accumulated_field (accumulated_after p.old m) (positions Jobs) }
{
    for k in 0..JOBS {
        let v = accumulated_after(&Tables::new(p), m, k);
        put_field(p, Table::Jobs, k, ACCUMULATED, v);
    }
}

// The pick.
pub fn pick_turn(p: &mut [u32]) -> Picked
    requires { heap_base ≤ length p.old }
    ensures p_after { p.new ≡ picked p.old }
    ensures value { result ≡ answer p.old }
{
    let tables = Tables::new(p);
    let m = chosen_job(&tables);
    if m == JOBS {
        put(p, CURRENT_WORD, NOBODY);
        return Picked {
            number: NOBODY,
            key: DONE,
        };
    }
    let number = tables.field_of(Table::Jobs, m, NUMBER);
    let key = signed_of(tables.field_of(Table::Jobs, m, KEY));
    give_gains(p, m);
    put_field(p, Table::Jobs, m, KEY, 0);
    put(p, CURRENT_WORD, number);
    Picked { number, key }
}

// A timeout after a frame: a positive one falls by 1.
fn fallen(timeout: i32) -> i32
    ensures { result ≡ fallen timeout }
{
    if timeout <= 0 {
        return timeout;
    }
    timeout - 1
}

// The tick of a frame.
pub fn tick_frame(p: &mut [u32])
    requires { heap_base ≤ length p.old }
    ensures { p.new ≡ ticked p.old }
{
    for k in 0..JOBS {
        let timeout = Tables::new(p).timeout_of(k);
        put_field(p, Table::Jobs, k, TIMEOUT, bits_of(fallen(timeout)));
    }
}

// The memory picture: where things stand in it, records, and numbers that name a job or a channel.
#![tactic(auto)]

ghost use Rattle.std.specs.Prelude.{◌≡◌, ℕ, ◌+◌, ◌*◌, ◌/◌, ◌%◌, ◌^◌, ◌<◌, ◌≤◌, length};
ghost use Rattle.words.specs.Words.{word};
ghost use Rattle.picture.specs.Layout.{positions, width, from, upto, last_word, mask_word, heap_base, greatest_tag};
ghost use Rattle.picture.specs.declared.Table.TheVariants.{Jobs, Channels};
ghost use Rattle.picture.specs.Records.{slot, field, timeout, members, with_members, used, ready, active};
ghost use Rattle.picture.specs.Numbers.{tag_weight, tag, position, live, entry_at, free_position, number_of};
ghost use Rattle.picture.specs.Answers.{refusal_key, answer_key};
ghost use Rattle.picture.specs.declared.Table.{Table};

use words::word;

// $FFFFFFFF: nobody.
pub const NOBODY: u32 = 0xFFFF_FFFF;

// The longwords before the tables.
pub const SIZE_WORD: usize = 0;

pub const CURRENT_WORD: usize = 1;

pub const HEAP_WORD: usize = 4;

pub const ZERO_WORD: usize = 7;

// N lies between these.
pub const LEAST_SIZE: usize = 1024;

pub const GREATEST_SIZE: usize = 16384;

// How many positions a table has, and how many longwords a record.
pub const JOBS: usize = 32;

pub const CHANNELS: usize = 32;

pub const JOB_WIDTH: usize = 8;

pub const CHANNEL_WIDTH: usize = 4;

// Where the tables and the heap start.
pub const FIRST_JOB: usize = 8;

pub const FIRST_CHANNEL: usize = FIRST_JOB + JOB_WIDTH * JOBS;

pub const HEAP_BASE: usize = (FIRST_CHANNEL + CHANNEL_WIDTH * CHANNELS + 3) / 4 * 4;

// In a number a tag is worth so much, and every position is below it.
pub const TAG_WEIGHT: u32 = 65536;

// Tags run to this one.
pub const GREATEST_TAG: u32 = 32767;

// Priorities run to this one, accumulated is held here, and a timeout has at most so many frames.
pub const GREATEST_PRIORITY: u32 = 127;

pub const HOLD: u32 = 8191;

pub const GREATEST_TIMEOUT: i32 = 32767;

// Timeout -1: without end.
pub const WITHOUT_END: i32 = -1;

// The fields of a record; the first three are those of a channel too, whose last is ENDING.
pub const NUMBER: usize = 0;

pub const OWNER: usize = 1;

pub const BASE: usize = 2;

pub const PRIORITY: usize = 3;

pub const ACCUMULATED: usize = 4;

pub const TIMEOUT: usize = 5;

pub const WAIT: usize = 6;

pub const KEY: usize = 7;

pub const ENDING: usize = 3;

// The keys.
pub const DONE: i32 = 0;

pub const NOT_COMPLETE: i32 = -1;

pub const INVALID_JOB: i32 = -2;

pub const OUT_OF_MEMORY: i32 = -3;

pub const OUT_OF_RANGE: i32 = -4;

pub const BUFFER_OVERFLOW: i32 = -5;

pub const CHANNEL_NOT_OPEN: i32 = -6;

pub const NOT_FOUND: i32 = -7;

pub const BAD_NAME: i32 = -12;

pub const BAD_PARAMETER: i32 = -15;

pub const NOT_SOUND: i32 = -16;

// The two tables of records.
#[derive(Clone, Copy)]
pub enum Table {
    Jobs,
    Channels,
}

// The two areas of blocks.
#[derive(Clone, Copy)]
pub enum Area {
    Heap,
    Transient,
}

// Why a call is refused: each of these has a key of its own.
#[derive(Clone, Copy)]
pub enum Refusal {
    NotComplete,
    InvalidJob,
    OutOfMemory,
    OutOfRange,
    BufferOverflow,
    ChannelNotOpen,
    NotFound,
    BadName,
    BadParameter,
    NotSound,
}

// The key of a refusal.
impl From<Refusal> for i32 {
    ghost from_gives = { λ refusal key. key ≡ refusal_key refusal };

    fn from(refusal: Refusal) -> i32 {
        match refusal {
            Refusal::NotComplete => NOT_COMPLETE,
            Refusal::InvalidJob => INVALID_JOB,
            Refusal::OutOfMemory => OUT_OF_MEMORY,
            Refusal::OutOfRange => OUT_OF_RANGE,
            Refusal::BufferOverflow => BUFFER_OVERFLOW,
            Refusal::ChannelNotOpen => CHANNEL_NOT_OPEN,
            Refusal::NotFound => NOT_FOUND,
            Refusal::BadName => BAD_NAME,
            Refusal::BadParameter => BAD_PARAMETER,
            Refusal::NotSound => NOT_SOUND,
        }
    }
}

// The key of an answer: that of its refusal, or 0.
pub fn key_of(answer: Result<(), Refusal>) -> i32
    ensures { result ≡ answer_key answer }
{
    match answer {
        Ok(()) => DONE,
        Err(refusal) => i32::from(refusal),
    }
}

// A number of either kind, which is looked up in the table of its kind alone.
pub trait Number: Copy {
    ghost TABLE: { Table };

    const TABLE: Table;

    ghost value: { Self → ℕ };

    fn value(self) -> u32
        ensures { result ≡ value self };
}

// A job's number and a channel's number are different kinds: one never stands for the other.
#[derive(Clone, Copy)]
pub struct JobNumber(pub u32);

#[derive(Clone, Copy)]
pub struct ChannelNumber(pub u32);

impl Number for JobNumber {
    ghost TABLE = { Jobs };

    const TABLE: Table = Table::Jobs;

    ghost value = { λ number. number.0 };

    fn value(self) -> u32 {
        self.0
    }
}

impl Number for ChannelNumber {
    ghost TABLE = { Channels };

    const TABLE: Table = Table::Channels;

    ghost value = { λ number. number.0 };

    fn value(self) -> u32 {
        self.0
    }
}

// How many positions the table has.
pub fn positions_of(t: Table) -> usize
    ensures { result ≡ positions t }
{
    match t {
        Table::Jobs => JOBS,
        Table::Channels => CHANNELS,
    }
}

// How many longwords a record of the table has.
pub fn width_of(t: Table) -> usize
    ensures { result ≡ width t }
{
    match t {
        Table::Jobs => JOB_WIDTH,
        Table::Channels => CHANNEL_WIDTH,
    }
}

// The longword that holds the last tag given.
pub fn last_of(t: Table) -> usize
    ensures { result ≡ last_word t }
{
    match t {
        Table::Jobs => 2,
        Table::Channels => 3,
    }
}

// The longword at i, which lies within.
pub fn word_at(p: &[u32], i: usize) -> u32
    requires { i < length p.now }
    ensures { result ≡ word p.now i }
{
    p[i]
}

// The longword that holds the table's mask.
fn mask_of(t: Table) -> usize
    ensures { result ≡ mask_word t }
{
    match t {
        Table::Jobs => 5,
        Table::Channels => 6,
    }
}

// Where the record of position k starts.
pub fn slot_of(t: Table, k: usize) -> usize
    requires { k < positions t }
    ensures { (result ≡ slot t k) × (result + width t ≤ heap_base) }
{
    match t {
        Table::Jobs => FIRST_JOB + JOB_WIDTH * k,
        Table::Channels => FIRST_CHANNEL + CHANNEL_WIDTH * k,
    }
}

// Field f of the record of position k.
pub fn field_of(p: &[u32], t: Table, k: usize, f: usize) -> u32
    requires { (k < positions t) × (f < width t) }
    ensures { result ≡ field p.now t k f }
{
    word(p, slot_of(t, k) + f)
}

// The timeout of the job at position k.
pub fn timeout_of(p: &[u32], k: usize) -> i32
    requires { k < positions Jobs }
    ensures { result ≡ timeout p.now k }
{
    words::signed_of(field_of(p, Table::Jobs, k, TIMEOUT))
}

// The set of the table's positions in use, of a picture that has its tables.
#[tactic(auto, unfolding(crate::specs::Records::members))]
pub fn members_at(p: &[u32], t: Table) -> u64
    requires { heap_base ≤ length p.now }
    ensures { (result ≡ members p.now t) × (result < 2 ^ positions t) }
{
    word_at(p, mask_of(t)) as u64
}

// Position k is one of them: one bit of one longword is tested.
#[tactic(auto, unfolding(crate::specs::Records::members), using(crate::proofs::Records::used_is))]
pub fn is_member_at(p: &[u32], t: Table, k: usize) -> bool
    requires { (heap_base ≤ length p.now) × (k < positions t) }
    ensures { result ≡ used p.now t k }
{
    words::is_set(word_at(p, mask_of(t)), k)
}

// Stores the set of the table's positions in use.
#[tactic(auto, unfolding(crate::specs::Records::with_members))]
pub fn put_members(p: &mut [u32], t: Table, set: u64)
    requires { (heap_base ≤ length p.old) × (set < 2 ^ positions t) }
    ensures { p.new ≡ with_members p.old t set }
{
    let i = mask_of(t);
    p[i] = set as u32;
}

// Position k is in use.
#[tactic(auto, unfolding(crate::specs::Records::members), using(crate::proofs::Records::used_past, crate::proofs::Records::used_is))]
pub fn is_used(p: &[u32], t: Table, k: usize) -> bool
    ensures { result ≡ used p.now t k }
{
    if positions_of(t) <= k {
        return false;
    }
    words::is_set(word(p, mask_of(t)), k)
}

// The job at position k is ready.
#[tactic(auto, unfolding(crate::specs::Records::ready))]
pub fn is_ready(p: &[u32], k: usize) -> bool
    requires { k < positions Jobs }
    ensures { result ≡ ready p.now k }
{
    (1 <= field_of(p, Table::Jobs, k, PRIORITY)) & (timeout_of(p, k) == 0)
}

// The job at position k is active.
#[tactic(auto, unfolding(crate::specs::Records::active))]
pub fn is_active(p: &[u32], k: usize) -> bool
    requires { k < positions Jobs }
    ensures { result ≡ active p.now k }
{
    1 <= field_of(p, Table::Jobs, k, PRIORITY)
}

// The tag of a number.
pub fn tag_of(n: u32) -> u32
    ensures { result ≡ tag n }
{
    n / TAG_WEIGHT
}

// The position of a number.
pub fn position_of(n: u32) -> usize
    ensures { (result ≡ position n) × (result < tag_weight) }
{
    (n % TAG_WEIGHT) as usize
}

// The number of the entry with this tag at this position.
pub fn number_of(tag: u32, position: usize) -> u32
    requires { (tag ≤ greatest_tag) × (position < tag_weight) }
    ensures { result ≡ number_of tag position }
{
    tag * TAG_WEIGHT + position as u32
}

// The number n names a live entry of the table.
#[tactic(auto, unfolding(crate::specs::Numbers::live), using(crate::proofs::Records::used_below, crate::proofs::Records::shared))]
pub fn is_live(p: &[u32], t: Table, n: u32) -> bool
    ensures { result ≡ live p.now t n }
{
    let k = position_of(n);
    if !is_used(p, t, k) {
        return false;
    }
    field_of(p, t, k, NUMBER) == n
}

// The position of the entry that the number names.
#[tactic(auto, using(crate::proofs::Numbers::entry_live, crate::proofs::Numbers::entry_dead))]
pub fn entry_at<N: Number>(p: &[u32], number: N) -> Option<usize>
    ensures { result ≡ entry_at p.now N.TABLE (N.value number) }
{
    let n = number.value();
    if is_live(p, N::TABLE, n) {
        return Some(position_of(n));
    }
    None
}

// The lowest position that is free, or the number of positions for none: by the mask alone, in as many steps however many are in use.
// That number is no Option, since the project asks for this form (docs/DECISIONS.md 27).
#[tactic(auto, unfolding(crate::specs::Numbers::free_position), using(crate::proofs::Members::positions_within, masks::proofs::Lowest::lowest_clear_is, masks::proofs::Lowest::lowest_clear_within))]
pub fn free_position(p: &[u32], t: Table) -> usize
    requires { heap_base ≤ length p.now }
    ensures { (result ≡ free_position p.now t) × (result ≤ positions t) }
{
    masks::lowest_clear(members_at(p, t))
}

// Where an area starts.
pub fn area_from(p: &[u32], a: Area) -> usize
    ensures { (result ≡ from p.now a) × (result < 8589934592) }
{
    match a {
        Area::Heap => HEAP_BASE,
        Area::Transient => HEAP_BASE + word(p, HEAP_WORD) as usize,
    }
}

// Where an area stops.
pub fn area_upto(p: &[u32], a: Area) -> usize
    ensures { (result ≡ upto p.now a) × (result < 8589934592) }
{
    match a {
        Area::Heap => HEAP_BASE + word(p, HEAP_WORD) as usize,
        Area::Transient => word(p, SIZE_WORD) as usize,
    }
}

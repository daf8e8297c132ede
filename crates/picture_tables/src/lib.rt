// A lent picture that has its tables, and its records: what `picture` says of any picture, with no index tested.
#![tactic(auto)]

ghost use Rattle.std.specs.Prelude.{◌≡◌, ℕ, List, ◌<◌, ◌≤◌, length};
ghost use Rattle.words.specs.Words.{word, put};
ghost use Rattle.picture.specs.Layout.{positions, width, last_word, heap_base};
ghost use Rattle.picture.specs.Records.{field, with_field, timeout, used, ready};
ghost use Rattle.picture.specs.Numbers.{live};
ghost use Rattle.picture.specs.declared.Table.TheVariants.{Jobs};

use picture::Table;
use std::marker::Model;

// A lent picture that has its tables.
#[derive(Drop)]
pub struct Tables<'a> {
    longwords: &'a [u32],
}

// A clause sees the picture; that it has its tables holds of each.
impl<'a> Model for Tables<'a> {
    ghost Value = { List ℕ };

    ghost view = { λ tables. tables.longwords.now };

    ghost invariant = { λ tables. heap_base ≤ length tables.longwords.now };
}

impl<'a> Tables<'a> {
    // The tables of a lent picture.
    pub fn new(longwords: &'a [u32]) -> Tables<'a>
        requires { heap_base ≤ length longwords.now }
        ensures { result ≡ longwords.now }
    {
        Tables { longwords }
    }

    // The picture itself.
    pub fn longwords(&self) -> &'a [u32]
        ensures same { result.now ≡ self.now }
        ensures has_tables { heap_base ≤ length self.now }
    {
        self.longwords
    }

    // The longword at i, which lies within.
    pub fn word_at(&self, i: usize) -> u32
        requires { i < length self.now }
        ensures { result ≡ word self.now i }
    {
        picture::word_at(self.longwords, i)
    }

    // The last tag given in the table.
    #[tactic(auto, using(crate::proofs::Within::last_before))]
    pub fn last_tag(&self, t: Table) -> u32
        ensures { result ≡ word self.now (last_word t) }
    {
        picture::word_at(self.longwords, picture::last_of(t))
    }

    // Field f of the record of position k.
    pub fn field_of(&self, t: Table, k: usize, f: usize) -> u32
        requires { (k < positions t) × (f < width t) }
        ensures { result ≡ field self.now t k f }
    {
        picture::word_at(self.longwords, picture::slot_of(t, k) + f)
    }

    // The timeout of the job at position k.
    pub fn timeout_of(&self, k: usize) -> i32
        requires { k < positions Jobs }
        ensures { result ≡ timeout self.now k }
    {
        words::signed_of(self.field_of(Table::Jobs, k, picture::TIMEOUT))
    }

    // Position k is in use.
    #[tactic(auto, unfolding(picture::specs::Records::used))]
    pub fn is_used(&self, t: Table, k: usize) -> bool
        ensures { result ≡ used self.now t k }
    {
        k < picture::positions_of(t) && picture::is_member_at(self.longwords, t, k)
    }

    // The number n names a live entry of the table.
    #[tactic(auto, using(picture::proofs::Records::used_below), unfolding(picture::specs::Numbers::live))]
    pub fn is_live(&self, t: Table, n: u32) -> bool
        ensures { result ≡ live self.now t n }
    {
        let k = picture::position_of(n);
        self.is_used(t, k) && self.field_of(t, k, picture::NUMBER) == n
    }

    // The job at position k is ready.
    #[tactic(auto, unfolding(picture::specs::Records::ready))]
    pub fn is_ready(&self, k: usize) -> bool
        requires { k < positions Jobs }
        ensures { result ≡ ready self.now k }
    {
        (1 <= self.field_of(Table::Jobs, k, picture::PRIORITY)) & (self.timeout_of(k) == 0)
    }
}

// Stores v at i, which lies within.
pub fn put_at(p: &mut [u32], i: usize, v: u32)
    requires { i < length p.old }
    ensures { p.new ≡ put p.old i v }
{
    p[i] = v;
}

// Stores v in field f of the record of position k.
pub fn put_field(p: &mut [u32], t: Table, k: usize, f: usize, v: u32)
    requires { (heap_base ≤ length p.old) × ((k < positions t) × (f < width t)) }
    ensures { p.new ≡ with_field p.old t k f v }
{
    put_at(p, picture::slot_of(t, k) + f, v);
}

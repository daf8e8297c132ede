// Sets of positions, by value: bit k is set where position k is a member.
#![tactic(auto)]

ghost use Rattle.std.specs.Prelude.{◌≡◌, ℕ, Bool, cond, ◌<◌, ◌≤◌};
ghost use Rattle.words.specs.Bits.{bit};
ghost use Rattle.masks.specs.Masks.{set_width, with_bit, without_bit, without, mask, lowest_clear};

// Position k is a member.
pub fn is_member(set: u64, k: usize) -> bool
    requires { k < set_width }
    ensures { result ≡ bit set k }
{
    (set >> k) % 2 == 1
}

// The set with the member k.
#[tactic(auto, using(crate::proofs::Masks::one_shifted, crate::proofs::Masks::with_bit_is))]
pub fn with_member(set: u64, k: usize) -> u64
    requires { k < set_width }
    ensures { result ≡ with_bit set k }
{
    set | (1 << k)
}

// The set without the member k.
#[tactic(auto, using(crate::proofs::Masks::one_shifted, crate::proofs::Masks::without_bit_is))]
pub fn without_member(set: u64, k: usize) -> u64
    requires { k < set_width }
    ensures { result ≡ without_bit set k }
{
    difference(set, 1 << k)
}

// The set with the member k if that passes.
pub fn with_passing(set: u64, k: usize, passes: bool) -> u64
    requires { k < set_width }
    ensures { result ≡ cond passes (with_bit set k) set }
{
    set | ((passes as u64) << k)
}

// The positions below `count` that pass the test.
pub fn positions_passing<F: Fn(usize) -> bool>(count: usize, passes: F) -> u64
    ghost test: { ℕ → Bool }
    requires few { count ≤ set_width }
    requires safe { (k : ℕ) → k < count → F.pre passes k }
    requires tells { (k : ℕ) (b : Bool) → k < count → F.post passes k b → b ≡ test k }
    ensures { result ≡ mask test count }
{
    let mut set: u64 = 0;
    for k in 0..count {
        set = with_passing(set, k, passes(k));
    }
    set
}

// The members of the set that aren't in the other.
#[tactic(auto, unfolding(crate::specs::Masks::without))]
pub fn difference(set: u64, other: u64) -> u64
    ensures { (result ≡ without set other) × (result ≤ set) }
{
    set & !other
}

// The lowest position that isn't a member, 64 where all are.
#[tactic(auto, using(crate::proofs::Lowest::complement))]
pub fn lowest_clear(set: u64) -> usize
    ensures { result ≡ lowest_clear set_width set }
{
    u64::trailing_zeros(!set) as usize
}

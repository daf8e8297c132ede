// Longwords of a lent slice, their bits, and signed numbers in registers.
#![tactic(auto)]

ghost use Rattle.std.specs.Prelude.{◌≡◌, ◌-◌, ◌%◌, ◌<◌, ◌≤◌};
ghost use Rattle.std.specs.Int.{w16};
ghost use Rattle.std.proofs.Common.{to_z};
ghost use Rattle.words.specs.Words.{word, put, clear, low_word};
ghost use Rattle.words.specs.Bits.{bit};
ghost use Rattle.words.specs.Signed.{signed, bits};

// The longword at i, 0 past the end.
pub fn word(p: &[u32], i: usize) -> u32
    ensures { result ≡ word p.now i }
{
    if i < p.len() {
        return p[i];
    }
    0
}

// Stores v at i; nothing past the end.
pub fn put(p: &mut [u32], i: usize, v: u32)
    ensures { p.new ≡ put p.old i v }
{
    if i < p.len() {
        p[i] = v;
    }
}

// Clears the longwords from `from` up to `upto`.
pub fn clear(p: &mut [u32], from: usize, upto: usize)
    ensures { p.new ≡ clear (upto - from) p.old from }
{
    for i in from..upto {
        put(p, i, 0);
    }
}

// Bit k of a longword is set.
pub fn is_set(longword: u32, k: usize) -> bool
    requires { k < 32 }
    ensures { result ≡ bit longword k }
{
    (longword >> k) % 2 == 1
}

// The low word of a register, read as signed.
pub fn low_half(register: u32) -> i32
    ensures { result ≡ to_z w16 (low_word register) }
{
    let half = (register % 65536) as u16;
    i32::from(half.cast_signed())
}

// A longword, read as signed.
pub fn signed_of(longword: u32) -> i32
    ensures { result ≡ signed longword }
{
    longword.cast_signed()
}

// The longword by which a signed number stands.
pub fn bits_of(number: i32) -> u32
    ensures { result ≡ bits number }
{
    number.cast_unsigned()
}

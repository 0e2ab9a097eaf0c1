// Sets of candidates, a bit each, and one round of striking out.
ghost use Rattle.std.specs.Prelude.{◌≡◌, Bool, true, false, ◌&&◌, not, ℕ, suc, ◌+◌, ◌*◌, ◌≤◌, ◌<◌, ltb, eqb, length};
ghost use Rattle.packed.specs.Packed.{word_bits, plane_words, bit_at, bit_of};
ghost use Rattle.grid.specs.Candidates.{Left};
ghost use Rattle.grid.specs.Stages.{AloneIn};

use packed::WORD_BITS;

// What a round of striking out comes to.
#[derive(Clone, Copy)]
pub enum Round {
    // One is left, and it is this one.
    Alone(usize),
    // Some were struck out.
    Struck,
    // None was.
    Stale,
}

// Whether k is in a set.
pub fn holds(left: &[u64], k: usize) -> bool
    ensures { result ≡ bit_of left.now k }
{
    let word = packed::shift::word_or_zero(left, k / WORD_BITS);
    (word >> (k % WORD_BITS)) % 2 == 1
}

// Whether some of those left have a bit here.
pub fn some_with(at: &[u64], left: &[u64]) -> bool
    requires { length at.now ≡ length left.now }
    ensures { result ≡ false → (k : ℕ) → (bit_of left.now k && bit_of at.now k) ≡ false }
{
    let mut met: u64 = 0;
    for i in 0..left.len() {
        met = met | (left[i] & at[i]);
    }
    met != 0
}

// Whether some of those left have none.
pub fn some_without(at: &[u64], left: &[u64]) -> bool
    requires { length at.now ≡ length left.now }
    ensures yes { result ≡ true → (k : ℕ) × ((bit_of left.now k && not (bit_of at.now k)) ≡ true) }
    ensures no { result ≡ false → (k : ℕ) → (bit_of left.now k && not (bit_of at.now k)) ≡ false }
{
    let mut met: u64 = 0;
    for i in 0..left.len() {
        let x = left[i];
        met = met | (x ^ (x & at[i]));
    }
    met != 0
}

// Takes out those that have a bit here.
pub fn take_out(at: &[u64], left: &mut [u64])
    requires { length at.now ≡ length left.old }
    ensures { (k : ℕ) → bit_of left.new k ≡ (bit_of left.old k && not (bit_of at.now k)) }
{
    for i in 0..left.len() {
        let x = left[i];
        left[i] = x ^ (x & at[i]);
    }
}

// Of those left, the ones without a bit here, if there are some; whether any were struck out. Those whose first t bits are the least of all become those whose
// first t and this one are.
pub fn strike(at: &[u64], left: &mut [u64]) -> bool
    requires { length at.now ≡ length left.old }
    ensures { (o t : ℕ) (F : ℕ → ℕ → Bool) → Left o F t (bit_of left.old) → ((k : ℕ) → k < o → bit_of at.now k ≡ F k t)
        → Left o F (suc t) (bit_of left.new) }
{
    if !some_with(at, left) {
        return false;
    }
    if !some_without(at, left) {
        return false;
    }
    take_out(at, left);
    true
}

// The first in a set that is not empty; 0 in an empty one.
pub fn first_of(left: &[u64]) -> usize
    requires { (0 < length left.now) × (length left.now ≤ plane_words) }
    ensures inside { result < word_bits * length left.now }
    ensures first { (k : ℕ) → bit_of left.now k ≡ true → bit_of left.now result ≡ true }
{
    for i in 0..left.len() {
        let x = left[i];
        if x != 0 {
            return WORD_BITS * i + (u64::trailing_zeros(x) as usize);
        }
    }
    0
}

// Word i of the set of k alone.
pub fn alone_word(k: usize, i: usize) -> u64
    ensures { (j : ℕ) → j < word_bits → bit_at result j ≡ eqb (word_bits * i + j) k }
{
    if i == k / WORD_BITS {
        1u64 << (k % WORD_BITS)
    } else {
        0
    }
}

// Whether k alone is in a set.
pub fn is_alone(left: &[u64], k: usize) -> bool
    requires { k < word_bits * length left.now }
    ensures { result ≡ true → (j : ℕ) → bit_of left.now j ≡ eqb j k }
{
    for i in 0..left.len() {
        if left[i] != alone_word(k, i) {
            return false;
        }
    }
    true
}

// One round at the bits of all candidates at one place: some are struck out, or none, and it is looked whether one is left.
pub fn strike_round(at: &[u64], left: &mut [u64]) -> Round
    requires { (length at.now ≡ length left.old) × (0 < length left.old) × (length left.old ≤ plane_words) }
    ensures left { (o t : ℕ) (F : ℕ → ℕ → Bool) → Left o F t (bit_of left.old) → ((k : ℕ) → k < o → bit_of at.now k ≡ F k t)
        → Left o F (suc t) (bit_of left.new) }
    ensures alone { AloneIn result (bit_of left.new) }
{
    if !strike(at, left) {
        return Round::Stale;
    }
    let k = first_of(left);
    if is_alone(left, k) {
        Round::Alone(k)
    } else {
        Round::Struck
    }
}

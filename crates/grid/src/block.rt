// A block of a plane: as many bits as the group has indices, from the block's first site on.
ghost use Rattle.std.specs.Prelude.{◌≡◌, true, false, ℕ, ◌+◌, ◌*◌, ◌≤◌, ◌<◌, length};
ghost use Rattle.pauli_word.specs.Limits.{max_sites};
ghost use Rattle.packed.specs.Packed.{word_bits, bit_at, bit_of, Clear};

use packed::WORD_BITS;

// The bits of a plane from bit p on, as many as a word has; 0 past the plane's end.
pub fn window(plane: &[u64], p: usize) -> u64
    requires { p ≤ max_sites + max_sites }
    ensures { (k : ℕ) → k < word_bits → bit_at result k ≡ bit_of plane.now (p + k) }
{
    let at = p / WORD_BITS;
    let bits = p % WORD_BITS;
    let low = packed::shift::word_or_zero(plane, at);
    let high = packed::shift::word_or_zero(plane, at + 1);
    (low >> bits) | ((high << 1) << (WORD_BITS - 1 - bits))
}

// Copies the block from bit `base` on.
pub fn take_block(plane: &[u64], base: usize, order: usize, at: &mut [u64])
    requires { (base ≤ max_sites) × (order ≤ word_bits * length at.old) × (word_bits * length at.old ≤ max_sites) }
    ensures bits { (k : ℕ) → k < order → bit_of at.new k ≡ bit_of plane.now (base + k) }
    ensures clear { Clear order at.new }
{
    for i in 0..at.len() {
        at[i] = window(plane, base + WORD_BITS * i) & packed::shift::ones_word(order, i);
    }
}

// Whether no bit is set.
pub fn no_bit(at: &[u64]) -> bool
    ensures { result ≡ true → (k : ℕ) → bit_of at.now k ≡ false }
{
    for i in 0..at.len() {
        if at[i] != 0 {
            return false;
        }
    }
    true
}

// Whether every bit below the order is set.
pub fn every_bit(at: &[u64], order: usize) -> bool
    requires { order ≤ word_bits * length at.now }
    ensures { result ≡ true → (k : ℕ) → k < order → bit_of at.now k ≡ true }
{
    for i in 0..at.len() {
        if at[i] != packed::shift::ones_word(order, i) {
            return false;
        }
    }
    true
}

// Whether all bits below the order are alike.
pub fn alike(at: &[u64], order: usize) -> bool
    requires { order ≤ word_bits * length at.now }
    ensures { result ≡ true → (j k : ℕ) → j < order → k < order → bit_of at.now j ≡ bit_of at.now k }
{
    if no_bit(at) {
        true
    } else {
        every_bit(at, order)
    }
}

// Planes read through a table.
ghost use Rattle.std.specs.Prelude.{◌≡◌, cond, false, ℕ, ◌+◌, ◌*◌, ◌≤◌, ◌<◌, ltb, length};
ghost use Rattle.pauli_word.specs.Limits.{max_sites};
ghost use Rattle.packed.specs.Packed.{word_bits, plane_words, bit_at, bit_of, Clear};
ghost use Rattle.renumbered.specs.Renumbered.{at};

use packed::WORD_BITS;

// Bit q of a plane, as a number; 0 past its end.
pub fn bit_of(plane: &[u64], q: usize) -> u64
    ensures small { result < 2 }
    ensures bit { bit_at result 0 ≡ bit_of plane.now q }
{
    (packed::shift::word_or_zero(plane, q / WORD_BITS) >> (q % WORD_BITS)) & 1
}

// A machine word of bits: those of a plane at the places that the table has from `start` on, so many of them, and then 0.
pub fn gather_word(plane: &[u64], table: &[u16], start: usize, count: usize) -> u64
    requires { (start + count ≤ length table.now) × (count ≤ word_bits) × (length table.now ≤ max_sites) }
    ensures { (k : ℕ) → k < word_bits → bit_at result k ≡ cond (ltb k count) (bit_of plane.now (at table.now (start + k))) false }
{
    let mut word: u64 = 0;
    for k in (0..count).rev() {
        word = (word << 1) | bit_of(plane, table[start + k] as usize);
    }
    word
}

// A plane whose bit a is the bit of another at place a of the table.
pub fn gather(plane: &[u64], table: &[u16], sites: usize, out: &mut [u64])
    requires sites_in_bounds { (sites ≤ length table.now) × (length table.now ≤ max_sites) }
    requires sites_bound { (sites ≤ word_bits * length out.old) × (length out.old ≤ plane_words) }
    ensures bits { (a : ℕ) → a < sites → bit_of out.new a ≡ bit_of plane.now (at table.now a) }
    ensures clear { Clear sites out.new }
{
    for i in 0..out.len() {
        let start = packed::shift::smaller(WORD_BITS * i, sites);
        let count = packed::shift::smaller(WORD_BITS, sites - start);
        out[i] = gather_word(plane, table, start, count);
    }
}

// Planes of machine words moved up and down, the masks of places in blocks, and the rotation inside blocks.
// Whoever calls a function here owes its `requires`.
ghost use Rattle.std.specs.Prelude.{◌≡◌, ◌&&◌, ◌||◌, cond, not, ℕ, ◌+◌, ◌-◌, ◌*◌, ◌/◌, ◌%◌, ◌<◌, ◌≤◌, min, ltb, length, get_or};
ghost use Rattle.packed.specs.Packed.{word_bits, plane_words, few_words, bit_at, bit_of, Clear, rotated, keep_at, Mask};

use crate::{PLANE_WORDS, WORD_BITS};

// A plane with as many words of zeros before it and after it as a plane has at most, and one more.
const PADDED_WORDS: usize = 3 * PLANE_WORDS + 1;

// Planes of so few words have room of their own, which takes less to clear.
const FEW_WORDS: usize = 8;

const FEW_PADDED: usize = 3 * FEW_WORDS + 1;

// A word with every bit set.
const FULL_WORD: u64 = 0xffff_ffff_ffff_ffff;

// Word i; 0 past the plane's end.
pub fn word_or_zero(plane: &[u64], i: usize) -> u64
    ensures { result ≡ get_or plane.now i 0 }
{
    if i < plane.len() { plane[i] } else { 0 }
}

// Word i of the plane moved up by s sites.
pub fn shl_word(plane: &[u64], i: usize, s: usize) -> u64
    ensures { (k : ℕ) → k < word_bits → bit_at result k ≡ (not (ltb (word_bits * i + k) s) && bit_of plane.now (word_bits * i + k - s)) }
{
    let words = s / WORD_BITS;
    let bits = s % WORD_BITS;
    if i < words {
        return 0;
    }
    let lo = word_or_zero(plane, i - words);
    if i == words {
        return lo << bits;
    }
    let hi = word_or_zero(plane, i - words - 1);
    (lo << bits) | ((hi >> 1) >> (WORD_BITS - 1 - bits))
}

// Word i of the plane whose bits below n are set.
pub fn ones_word(n: usize, i: usize) -> u64
    ensures { (k : ℕ) → k < word_bits → bit_at result k ≡ ltb (word_bits * i + k) n }
{
    let last = n / WORD_BITS;
    if i < last {
        return FULL_WORD;
    }
    if last < i {
        return 0;
    }
    (1u64 << (n % WORD_BITS)) - 1
}

// Sets the bits from low on that are below high, and clears the others.
pub fn fill_run(low: usize, high: usize, mask: &mut [u64])
    requires { (low ≤ high) × (high ≤ word_bits * length mask.old) }
    ensures { (q : ℕ) → bit_of mask.new q ≡ (not (ltb q low) && ltb q high) }
{
    for i in 0..mask.len() {
        let word = ones_word(high, i) ^ ones_word(low, i);
        mask[i] = word;
    }
}

// Adds to a mask its bits moved up by s, from the last word down: a word needs none above it.
pub fn or_moved_up(s: usize, mask: &mut [u64])
    ensures { (q : ℕ) → q < word_bits * length mask.old → bit_of mask.new q ≡ (bit_of mask.old q || not (ltb q s) && bit_of mask.old (q - s)) }
{
    for i in (0..mask.len()).rev() {
        let moved = shl_word(mask, i, s);
        mask[i] = mask[i] | moved;
    }
}

// The smaller of two numbers.
pub fn smaller(a: usize, b: usize) -> usize
    ensures { result ≡ min a b }
{
    if a < b { a } else { b }
}

// The mask of the sites whose place in their block is at least low and below high: the first block's run, doubled until it covers the sites.
pub fn fill_mask(low: usize, high: usize, block: usize, sites: usize, mask: &mut [u64])
    requires { (0 < block) × (sites % block ≡ 0) × (low ≤ high) × (high ≤ block) × (sites ≤ word_bits * length mask.old) }
    ensures { (q : ℕ) → bit_of mask.new q ≡ (ltb q sites && not (ltb (q % block) low) && ltb (q % block) high) }
{
    if sites == 0 {
        fill_run(0, 0, mask);
        return;
    }
    fill_run(low, high, mask);
    let mut covered = block;
    // A while: what is covered doubles, up to the sites.
    while covered < sites {
        let step = smaller(covered, sites - covered);
        or_moved_up(step, mask);
        covered += step;
    }
}

// The mask of the sites that take their bit from stride sites below them: all but the first of each block.
pub fn keep_mask(stride: usize, block: usize, sites: usize, mask: &mut [u64])
    requires { (0 < block) × (sites % block ≡ 0) × (stride ≤ block) × (sites ≤ word_bits * length mask.old) }
    ensures { Mask (keep_at stride block sites) mask.new }
{
    fill_mask(stride, block, block, sites, mask);
}

// The bits of a where the mask has a bit, and those of b elsewhere.
pub fn pick(mask: u64, a: u64, b: u64) -> u64
    ensures { (k : ℕ) → bit_at result k ≡ cond (bit_at mask k) (bit_at a k) (bit_at b k) }
{
    b ^ ((a ^ b) & mask)
}

// A word moved up by s, with nothing below.
pub fn lifted(x: u64, s: usize) -> u64
    ensures { (k : ℕ) → k < word_bits → bit_at result k ≡ (not (ltb k s) && bit_at x (k - s)) }
{
    if s < WORD_BITS { x << s } else { 0 }
}

// A word moved down by t, with nothing above.
pub fn lowered(x: u64, t: usize) -> u64
    ensures { (k : ℕ) → bit_at result k ≡ bit_at x (k + t) }
{
    if t < WORD_BITS { x >> t } else { 0 }
}

// In a plane of one word, each bit from s below it where keep has it, and from t above it elsewhere.
pub fn turn_word(plane: &mut [u64], keep: &[u64], s: usize, t: usize)
    requires { (length plane.old ≡ 1) × (length keep.now ≡ 1) }
    ensures { (q : ℕ) → q < word_bits * length plane.old → bit_of plane.new q ≡ cond (bit_of keep.now q) (not (ltb q s) && bit_of plane.old (q - s)) (bit_of plane.old (q + t)) }
{
    let x = plane[0];
    plane[0] = pick(keep[0], lifted(x, s), lowered(x, t));
}

// The bits of a plane from bit p on, as many as a word has.
pub fn window(plane: &[u64], p: usize) -> u64
    requires { p / word_bits + 1 < length plane.now }
    ensures { (k : ℕ) → k < word_bits → bit_at result k ≡ bit_of plane.now (p + k) }
{
    let at = p / WORD_BITS;
    let bits = p % WORD_BITS;
    (plane[at] >> bits) | ((plane[at + 1] << 1) << (WORD_BITS - 1 - bits))
}

// Copies the words of a plane over a list of zeros, behind `before` of them.
pub fn pad_words(plane: &[u64], before: usize, pad: &mut [u64])
    requires { (before + length plane.now ≤ length pad.old) × ((k : ℕ) → get_or pad.old k 0 ≡ 0) }
    ensures before { (k : ℕ) → k < before → get_or pad.new k 0 ≡ 0 }
    ensures words { (k : ℕ) → get_or pad.new (before + k) 0 ≡ get_or plane.now k 0 }
{
    for i in 0..plane.len() {
        pad[before + i] = plane[i];
    }
}

// Word by word, each bit of a plane that stands behind `before` words of zeros, from s below it where keep has it, and from t above it elsewhere.
pub fn turn_padded(pad: &[u64], before: usize, keep: &[u64], s: usize, t: usize, plane: &mut [u64])
    requires plane_len_bound { (length plane.old ≤ before) × (length keep.now ≡ length plane.old) × (length pad.now ≡ 3 * before + 1) × (before ≤ plane_words) }
    requires s_bound { (s ≤ word_bits * before) × (t ≤ word_bits * before) }
    ensures { (q : ℕ) → q < word_bits * length plane.old → bit_of plane.new q ≡ cond (bit_of keep.now q) (bit_of pad.now (word_bits * before + q - s)) (bit_of pad.now (word_bits * before + q + t)) }
{
    for i in 0..plane.len() {
        let at = WORD_BITS * (before + i);
        plane[i] = pick(keep[i], window(pad, at - s), window(pad, at + t));
    }
}

// In a plane of few words, each bit from s below it where keep has it, and from t above it elsewhere.
pub fn turn_few(plane: &mut [u64], keep: &[u64], s: usize, t: usize)
    requires plane_len_bound { (length plane.old ≤ few_words) × (length keep.now ≡ length plane.old) }
    requires s_bound { (s ≤ word_bits * few_words) × (t ≤ word_bits * few_words) }
    ensures { (q : ℕ) → q < word_bits * length plane.old → bit_of plane.new q ≡ cond (bit_of keep.now q) (not (ltb q s) && bit_of plane.old (q - s)) (bit_of plane.old (q + t)) }
{
    let mut pad = [0u64; FEW_PADDED];
    pad_words(plane, FEW_WORDS, &mut pad);
    turn_padded(&pad, FEW_WORDS, keep, s, t, plane);
}

// In a plane of any number of words, each bit from s below it where keep has it, and from t above it elsewhere.
pub fn turn_words(plane: &mut [u64], keep: &[u64], s: usize, t: usize)
    requires plane_len_bound { (length plane.old ≤ plane_words) × (length keep.now ≡ length plane.old) }
    requires s_bound { (s ≤ word_bits * plane_words) × (t ≤ word_bits * plane_words) }
    ensures { (q : ℕ) → q < word_bits * length plane.old → bit_of plane.new q ≡ cond (bit_of keep.now q) (not (ltb q s) && bit_of plane.old (q - s)) (bit_of plane.old (q + t)) }
{
    let mut pad = [0u64; PADDED_WORDS];
    pad_words(plane, PLANE_WORDS, &mut pad);
    turn_padded(&pad, PLANE_WORDS, keep, s, t, plane);
}

// Rotates the bits of a plane by stride inside blocks, by the mask of `keep_mask`: what it leaves out of the sites is what goes round.
pub fn rotate_kept(plane: &mut [u64], keep: &[u64], stride: usize, block: usize, sites: usize)
    requires plane_len_bound { (length plane.old ≤ plane_words) × (length keep.now ≡ length plane.old) }
    requires block_nonzero { (0 < block) × (stride ≤ block) × (sites % block ≡ 0) × (sites ≤ word_bits * length plane.old) }
    requires clear_2 { Clear sites plane.old × Mask (keep_at stride block sites) keep.now }
    ensures moved { (q : ℕ) → q < sites → bit_of plane.new (rotated stride block q) ≡ bit_of plane.old q }
    ensures clear { Clear sites plane.new }
{
    if sites == 0 {
        return;
    }
    if plane.len() == 1 {
        turn_word(plane, keep, stride, block - stride);
        return;
    }
    if plane.len() <= FEW_WORDS {
        turn_few(plane, keep, stride, block - stride);
        return;
    }
    turn_words(plane, keep, stride, block - stride);
}

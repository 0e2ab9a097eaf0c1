// Planes of bytes to planes of machine words and back, machine words compared, and machine words copied. Whoever calls a function here owes its `requires`.
ghost use Rattle.std.specs.Prelude.{ℕ, ◌+◌, ◌*◌, ◌<◌, ◌≤◌, ◌≡◌, Bool, false, length, get_or};
ghost use Rattle.pauli_word.specs.Bytes.{plane_bits};
ghost use Rattle.packed.specs.Packed.{word_bits, bit_at, bit_of, Compared};

use std::cmp::Ordering;

// The machine word of the eight bytes from `at` on, the first one lowest.
pub fn word_from(bytes: &[u8], at: usize) -> u64
    requires { at + 8 ≤ length bytes.now }
    ensures { (k : ℕ) → k < word_bits → bit_at result k ≡ get_or (plane_bits bytes.now) (8 * at + k) false }
{
    (bytes[at] as u64)
        | ((bytes[at + 1] as u64) << 8)
        | ((bytes[at + 2] as u64) << 16)
        | ((bytes[at + 3] as u64) << 24)
        | ((bytes[at + 4] as u64) << 32)
        | ((bytes[at + 5] as u64) << 40)
        | ((bytes[at + 6] as u64) << 48)
        | ((bytes[at + 7] as u64) << 56)
}

// Packs the first bytes of a plane, eight to a machine word, as many as there are places for.
pub fn pack(plane: &[u8], words: &mut [u64])
    requires { 8 * length words.old ≤ length plane.now }
    ensures { (q : ℕ) → q < word_bits * length words.old → bit_of words.new q ≡ get_or (plane_bits plane.now) q false }
{
    for j in 0..words.len() {
        words[j] = word_from(plane, 8 * j);
    }
}

// Stores the eight bytes of machine word x from `at` on, the lowest first. A plane that had the bits of f before them, where x has the next bits
// of f, then has those of f up to their end.
fn put_word(x: u64, plane: &mut [u8], at: usize)
    requires { at + 8 ≤ length plane.old }
    ensures { (f : ℕ → Bool)
        → ((k : ℕ) → k < word_bits → bit_at x k ≡ f (8 * at + k))
        → ((q : ℕ) → q < 8 * at → get_or (plane_bits plane.old) q false ≡ f q)
        → (q : ℕ) → q < 8 * (at + 8) → get_or (plane_bits plane.new) q false ≡ f q }
{
    plane[at] = (x % 256) as u8;
    plane[at + 1] = ((x >> 8) % 256) as u8;
    plane[at + 2] = ((x >> 16) % 256) as u8;
    plane[at + 3] = ((x >> 24) % 256) as u8;
    plane[at + 4] = ((x >> 32) % 256) as u8;
    plane[at + 5] = ((x >> 40) % 256) as u8;
    plane[at + 6] = ((x >> 48) % 256) as u8;
    plane[at + 7] = ((x >> 56) % 256) as u8;
}

// Clears the bytes from `at` on. A plane that had the bits of f before them, where f has no bit after, then has those of f.
fn clear_rest(plane: &mut [u8], at: usize)
    ensures { (f : ℕ → Bool)
        → ((q : ℕ) → 8 * at ≤ q → f q ≡ false)
        → ((q : ℕ) → q < 8 * at → get_or (plane_bits plane.old) q false ≡ f q)
        → (q : ℕ) → get_or (plane_bits plane.new) q false ≡ f q }
{
    for j in at..plane.len() {
        plane[j] = 0;
    }
}

// Unpacks a plane: its bytes from the machine words, and zeros after them.
pub fn unpack(words: &[u64], plane: &mut [u8])
    requires { 8 * length words.now ≤ length plane.old }
    ensures { (q : ℕ) → get_or (plane_bits plane.new) q false ≡ bit_of words.now q }
{
    for i in 0..words.len() {
        put_word(words[i], plane, 8 * i);
    }
    clear_rest(plane, 8 * words.len());
}

// How the bits of machine word x stand to those of y, lowest first: the lowest bit where they differ decides.
pub fn compare_word(x: u64, y: u64) -> Ordering
    ensures { Compared result word_bits (bit_at x) (bit_at y) }
{
    let d = x ^ y;
    if d == 0 {
        return Ordering::Equal;
    }
    if (x >> u64::trailing_zeros(d)) % 2 == 0 {
        return Ordering::Less;
    }
    Ordering::Greater
}

// How the bits of plane a stand to those of plane b: the first machine word that differs decides.
pub fn compare(a: &[u64], b: &[u64]) -> Ordering
    requires { length a.now ≡ length b.now }
    ensures { Compared result (word_bits * length a.now) (bit_of a.now) (bit_of b.now) }
{
    for i in 0..a.len() {
        let x = a[i];
        let y = b[i];
        if x != y {
            return compare_word(x, y);
        }
    }
    Ordering::Equal
}

// Copies src over dst.
pub fn copy(src: &[u64], dst: &mut [u64])
    requires { length src.now ≡ length dst.old }
    ensures { dst.new ≡ src.now }
{
    dst.copy_from_slice(src);
}

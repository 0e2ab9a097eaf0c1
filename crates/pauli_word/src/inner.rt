// What the crates above need of words: their checks, their bits, how bytes compare, and bytes copied. Whoever calls a function here owes its `requires`.
ghost use Rattle.std.specs.Prelude.{◌≡◌, false, ◌+◌, ◌≤◌, length, get_or, take, drop, replicate};
ghost use Rattle.pauli_word.specs.Limits.{plane_length, word_length};
ghost use Rattle.outcome.specs.Outcome.{verdict, outcome_of};
ghost use Rattle.pauli_word.specs.Bytes.{plane_bits, with_site, EitherLength, spread as spread_of, in_full};
ghost use Rattle.pauli_word.specs.Calls.{either_length, past_old, clear_above, word_checks, order_of_bits};

use crate::{MAX_SITES, OLD_SITES, OLD_WORD_BYTES, PLANE_BYTES, WORD_BYTES, plane};
use outcome::Refusal;
use std::cmp::Ordering;

// The two bits of a site.
#[derive(Clone, Copy)]
pub struct Site {
    pub x: bool,
    pub z: bool,
}

// Whether a length is that of a word in full, or of one of the old form.
pub fn either_length(length: usize) -> bool
    ensures { result ≡ either_length length }
{
    if length == WORD_BYTES {
        true
    } else {
        length == OLD_WORD_BYTES
    }
}

// Whether n sites are too many for a word of this length: the old form's, and more sites than it has.
pub fn past_old(n: usize, length: usize) -> bool
    ensures { result ≡ past_old n length }
{
    if length == OLD_WORD_BYTES {
        OLD_SITES < n
    } else {
        false
    }
}

// Whether no bit of a word of either form is set at or above n.
pub fn clear_above(n: usize, word: &[u8]) -> bool
    requires { EitherLength (length word.now) }
    ensures { result ≡ clear_above n (in_full word.now) }
{
    let half = word.len() / 2;
    if plane::clear_from(&word[0..half], n) {
        plane::clear_from(&word[half..], n)
    } else {
        false
    }
}

// The checks of a word of n sites: 1, 15, 36, 17.
pub fn checked(n: usize, word: &[u8]) -> Result<(), Refusal>
    ensures { outcome_of result ≡ verdict (word_checks n word.now) }
{
    if MAX_SITES < n {
        return Err(Refusal::TooManySites);
    }
    if !either_length(word.len()) {
        return Err(Refusal::WordLength);
    }
    if past_old(n, word.len()) {
        return Err(Refusal::OldWordSites);
    }
    if clear_above(n, word) {
        Ok(())
    } else {
        Err(Refusal::BitAboveSites)
    }
}

// Copies two planes of half a word each over zeros, each to where its plane begins in a word in full.
fn spread(word: &[u8], half: usize, full: &mut [u8])
    requires word_len { (length word.now ≡ half + half) × (half ≤ plane_length) }
    requires full_value { full.old ≡ replicate word_length 0 }
    ensures { full.new ≡ spread_of half word.now }
{
    copy(&word[0..half], &mut full[0..half]);
    let end = PLANE_BYTES + half;
    copy(&word[half..], &mut full[PLANE_BYTES..end]);
}

// A word of either form in full: the bytes that a plane lacks are 0.
pub fn in_full(word: &[u8]) -> [u8; WORD_BYTES]
    requires { EitherLength (length word.now) }
    ensures { result ≡ in_full word.now }
{
    let mut full = [0u8; WORD_BYTES];
    spread(word, word.len() / 2, &mut full);
    full
}

// How the bits of bytes a stand to those of bytes b, up to where the shorter ends.
pub fn compare_bytes(a: &[u8], b: &[u8]) -> Ordering
    ensures order { result ≡ order_of_bits (plane_bits a.now) (plane_bits b.now) }
{
    let n = plane::shorter(a, b);
    for i in 0..n {
        let x = a[i];
        let y = b[i];
        if x != y {
            return plane::compare_byte(x, y);
        }
    }
    Ordering::Equal
}

// Copies src over dst.
pub fn copy(src: &[u8], dst: &mut [u8])
    requires { length src.now ≡ length dst.old }
    ensures { dst.new ≡ src.now }
{
    dst.copy_from_slice(src);
}

// The bits of site q.
pub fn site_at(word: &[u8], q: usize) -> Site
    requires { length word.now ≡ word_length }
    ensures x { result.x ≡ get_or (plane_bits (take plane_length word.now)) q false }
    ensures z { result.z ≡ get_or (plane_bits (drop plane_length word.now)) q false }
{
    let x = plane::bit_at(&word[..PLANE_BYTES], q);
    let z = plane::bit_at(&word[PLANE_BYTES..], q);
    Site { x, z }
}

// Sets the bits of site q where they hold: the X bit for x, the Z bit for z.
pub fn put_site(word: &mut [u8], q: usize, x: bool, z: bool)
    requires { length word.old ≡ word_length }
    ensures { word.new ≡ with_site plane_length word.old q x z }
{
    plane::or_bit(&mut word[..PLANE_BYTES], q, x);
    plane::or_bit(&mut word[PLANE_BYTES..], q, z);
}

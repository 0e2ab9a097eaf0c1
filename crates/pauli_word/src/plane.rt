// One plane of bits, eight a byte, least significant first.
ghost use Rattle.std.specs.Prelude.{◌≡◌, false, min, length, get_or};
ghost use Rattle.pauli_word.specs.Bytes.{low_bits, plane_bits, or_at, clear_from};
ghost use Rattle.pauli_word.specs.Calls.{order_of_bits};

use std::cmp::Ordering;

// Bit q; false past the plane's end.
pub fn bit_at(plane: &[u8], q: usize) -> bool
    ensures { result ≡ get_or (plane_bits plane.now) q false }
{
    let at = q / 8;
    if at < plane.len() {
        (plane[at] >> (q % 8)) % 2 == 1
    } else {
        false
    }
}

// Sets bit q where b holds; past the plane's end it does nothing.
pub fn or_bit(plane: &mut [u8], q: usize, b: bool)
    ensures { plane_bits plane.new ≡ or_at (plane_bits plane.old) q b }
{
    let at = q / 8;
    if at < plane.len() {
        if b {
            if (plane[at] >> (q % 8)) % 2 == 0 {
                plane[at] += 1u8 << (q % 8);
            }
        }
    }
}

// Whether no bit at or above n is set. No branch for a byte, so that several are looked at in one step.
pub fn clear_from(plane: &[u8], n: usize) -> bool
    ensures { result ≡ clear_from n plane.now }
{
    let first = n / 8;
    if plane.len() <= first {
        return true;
    }
    let mut any = plane[first] >> (n % 8);
    for j in first + 1..plane.len() {
        any = any | plane[j];
    }
    any == 0
}

// The length of the shorter of two slices.
pub fn shorter(a: &[u8], b: &[u8]) -> usize
    ensures { result ≡ min (length a.now) (length b.now) }
{
    if a.len() < b.len() { a.len() } else { b.len() }
}

// How the bits of byte x stand to those of byte y.
pub fn compare_byte(x: u8, y: u8) -> Ordering
    ensures { result ≡ order_of_bits (low_bits 8 x) (low_bits 8 y) }
{
    let mut a = x;
    let mut b = y;
    for _k in 0..8usize {
        if a % 2 < b % 2 {
            return Ordering::Less;
        }
        if b % 2 < a % 2 {
            return Ordering::Greater;
        }
        a = a / 2;
        b = b / 2;
    }
    Ordering::Equal
}

// How two words stand to each other, by their codes: by their X bits, and where those tie by their Z bits.
ghost use Rattle.std.specs.Prelude.{◌≡◌, ◌/◌, map, length};
ghost use Rattle.pauli_word.specs.Word.{Word};
ghost use Rattle.pauli_word.specs.Bytes.{odd};
ghost use Rattle.pauli_word.specs.Calls.{order_of_bits, order_of_words};
ghost use Rattle.elements.specs.Letters.{codes};

use std::cmp::Ordering;

// How the X bits of codes a stand to those of codes b.
pub fn compare_x(a: &[u8], b: &[u8]) -> Ordering
    requires { length a.now ≡ length b.now }
    ensures { result ≡ order_of_bits (map odd a.now) (map odd b.now) }
{
    for q in 0..a.len() {
        let x = a[q] % 2;
        let y = b[q] % 2;
        if x < y {
            return Ordering::Less;
        }
        if y < x {
            return Ordering::Greater;
        }
    }
    Ordering::Equal
}

// How the Z bits of codes a stand to those of codes b.
pub fn compare_z(a: &[u8], b: &[u8]) -> Ordering
    requires { length a.now ≡ length b.now }
    ensures { result ≡ order_of_bits (map (λ c. odd (c / 2)) a.now) (map (λ c. odd (c / 2)) b.now) }
{
    for q in 0..a.len() {
        let x = a[q] / 2 % 2;
        let y = b[q] / 2 % 2;
        if x < y {
            return Ordering::Less;
        }
        if y < x {
            return Ordering::Greater;
        }
    }
    Ordering::Equal
}

// How the word with codes a stands to the word with codes b, of as many sites.
pub fn compare(a: &[u8], b: &[u8]) -> Ordering
    requires { length a.now ≡ length b.now }
    ensures { (v w : Word) → a.now ≡ codes v → b.now ≡ codes w → result ≡ order_of_words v w }
{
    match compare_x(a, b) {
        Ordering::Less => Ordering::Less,
        Ordering::Equal => compare_z(a, b),
        Ordering::Greater => Ordering::Greater,
    }
}

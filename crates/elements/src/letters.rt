// Words as one byte a site, the code of its letter: I 0, X 1, Z 2, Y 3. Whoever calls a function here owes its `requires`.
ghost use Rattle.std.specs.Prelude.{◌≡◌, ◌+◌, ◌/◌, ◌≤◌, min, map, length};
ghost use Rattle.pauli_word.specs.Limits.{max_sites};
ghost use Rattle.pauli_word.specs.Word.{Word};
ghost use Rattle.pauli_word.specs.Bytes.{AcceptedWord, letters_in, bytes_of, odd, number};
ghost use Rattle.action.specs.Permutation.{Permutes};
ghost use Rattle.action.specs.Orbit.{move as moveBy};
ghost use Rattle.elements.specs.Letters.{codes};

use pauli_word::{PLANE_BYTES, WORD_BYTES};

// One byte of each plane.
#[derive(Clone, Copy)]
pub struct PlaneBytes {
    pub x: u8,
    pub z: u8,
}

// The codes of the letters of an accepted word.
pub fn unpack(word: &[u8], sites: usize, letters: &mut [u8])
    requires accepted_word { AcceptedWord sites word.now }
    requires letters_len { length letters.old ≡ sites }
    ensures { letters.new ≡ codes (letters_in sites word.now) }
{
    for q in 0..sites {
        let at = q / 8;
        let x = (word[at] >> (q % 8)) % 2;
        let z = (word[PLANE_BYTES + at] >> (q % 8)) % 2;
        letters[q] = x + 2 * z;
    }
}

// The codes of a word, moved: site q's goes to site perm[q].
pub fn move_letters(perm: &[u16], from: &[u8], to: &mut [u8])
    requires permutes { Permutes (length from.now) perm.now }
    requires to_len { length to.old ≡ length from.now }
    ensures { (w : Word) → from.now ≡ codes w → to.new ≡ codes (moveBy perm.now w) }
{
    for q in 0..from.len() {
        let target = perm[q] as usize;
        to[target] = from[q];
    }
}

// The bytes of both planes for at most eight letters.
pub fn pack_byte(letters: &[u8]) -> PlaneBytes
    requires { length letters.now ≤ 8 }
    ensures x { result.x ≡ number (map odd letters.now) }
    ensures z { result.z ≡ number (map (λ c. odd (c / 2)) letters.now) }
{
    let mut x = 0u8;
    let mut z = 0u8;
    for k in (0..letters.len()).rev() {
        let c = letters[k];
        x = c % 2 + 2 * x;
        z = c / 2 % 2 + 2 * z;
    }
    PlaneBytes { x, z }
}

// Where the byte that starts at a site ends: after eight sites, or after the last.
pub fn byte_end(start: usize, sites: usize) -> usize
    requires { start ≤ sites }
    ensures { result ≡ min (start + 8) sites }
{
    if sites - start < 8 { sites } else { start + 8 }
}

// The bytes of the word with these codes.
pub fn pack(letters: &[u8]) -> [u8; WORD_BYTES]
    requires { length letters.now ≤ max_sites }
    ensures { (w : Word) → letters.now ≡ codes w → result ≡ bytes_of w }
{
    let mut out = [0u8; WORD_BYTES];
    let mut start = 0;
    let mut j = 0;
    // A while: over `chunks(8)` the proof did not close.
    while start < letters.len() {
        let end = byte_end(start, letters.len());
        let b = pack_byte(&letters[start..end]);
        out[j] = b.x;
        out[PLANE_BYTES + j] = b.z;
        j += 1;
        start = end;
    }
    out
}

// The bytes of a word, moved by way of its codes; from and to are room for them.
pub fn moved(
    perm: &[u16],
    sites: usize,
    word: &[u8],
    from: &mut [u8],
    to: &mut [u8],
) -> [u8; WORD_BYTES]
    requires permutes { Permutes sites perm.now }
    requires accepted_word { AcceptedWord sites word.now }
    requires from_len { length from.old ≡ sites }
    requires to_len { length to.old ≡ sites }
    ensures { result ≡ bytes_of (moveBy perm.now (letters_in sites word.now)) }
{
    unpack(word, sites, from);
    move_letters(perm, from, to);
    pack(to)
}

// One letter: its byte in a text, its two bits.
ghost use Rattle.std.specs.Prelude.{◌≡◌};
ghost use Rattle.pauli_word.specs.Word.{letter_of};
ghost use Rattle.pauli_word.specs.Text.{glyph};
ghost use Rattle.pauli_word.specs.Calls.{letter_bits};

use crate::inner::Site;

// The letter that a byte writes.
pub fn read(byte: u8) -> Option<Site>
    ensures { result ≡ letter_bits byte }
{
    match byte {
        b'I' => Some(Site { x: false, z: false }),
        b'X' => Some(Site { x: true, z: false }),
        b'Y' => Some(Site { x: true, z: true }),
        b'Z' => Some(Site { x: false, z: true }),
        0..=72 | 74..=87 | 91..=255 => None,
    }
}

// The byte that writes the letter with these bits.
pub fn spelled(x: bool, z: bool) -> u8
    ensures { result ≡ glyph (letter_of x z) }
{
    if x {
        if z { b'Y' } else { b'X' }
    } else {
        if z { b'Z' } else { b'I' }
    }
}

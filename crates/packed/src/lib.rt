// Planes as machine words: packed from bytes and unpacked, compared, and rotated inside blocks by masks.
#![tactic(auto)]

pub mod shift;
pub mod words;

use pauli_word::PLANE_BYTES;

// The bits of a machine word.
pub const WORD_BITS: usize = 64;

// The machine words of one plane: eight bytes each.
pub const PLANE_WORDS: usize = PLANE_BYTES / 8;

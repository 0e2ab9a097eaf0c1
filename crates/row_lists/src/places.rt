// Rows put into their places. Whoever calls a function here owes its `requires`.
ghost use Rattle.std.specs.Prelude.{◌≡◌, ℕ, ◌/◌, ◌<◌, length, take, get_or};
ghost use Rattle.pauli_word.specs.Limits.{word_length};
ghost use Rattle.row_lists.specs.Rows.{max_rows, arranged_words};
ghost use Rattle.row_lists.specs.Arranging.{Positions, Owned, Placed};

use crate::{MAX_ROWS, exchange, zeros};
use pauli_word::WORD_BYTES;

// Writes down for each of the first `used` positions which place it is for.
pub fn own(positions: &[u16], used: usize, owners: &mut [u16])
    requires positions { Positions positions.now used max_rows }
    requires owners_len { length owners.old ≡ max_rows }
    requires by_index { (p : ℕ) → get_or owners.old p 0 < max_rows }
    ensures { Owned positions.now owners.new 0 used }
{
    for k in 0..used {
        let at = positions[k] as usize;
        owners[at] = k as u16;
    }
}

// Puts the rows at the first `used` positions into rows 0, 1, ..; what stands after them then is of no account. At most one exchange a place.
pub fn place_rows(positions: &mut [u16], used: usize, words: &mut [u8])
    requires { Positions positions.old used (length words.old / word_length) }
    ensures placed { Placed (take used positions.old) words.old words.new }
{
    let mut owners = [0u16; MAX_ROWS];
    own(positions, used, &mut owners);
    for k in 0..used {
        exchange::place_row(positions, &mut owners, k, words);
    }
}

// The rows at the first `used` positions, in their order, and zeros after them.
pub fn arrange(positions: &mut [u16], used: usize, words: &mut [u8])
    requires { Positions positions.old used (length words.old / word_length) }
    ensures { words.new ≡ arranged_words words.old (take used positions.old) }
{
    place_rows(positions, used, words);
    zeros::bytes_from(words, WORD_BYTES * used);
}

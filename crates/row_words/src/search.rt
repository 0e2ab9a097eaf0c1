// Where a row's word stands among those of other rows, in rising order. Whoever calls a function here owes its `requires`.
ghost use Rattle.std.specs.Prelude.{◌≡◌, map, ◌+◌, ◌*◌, ◌≤◌, ◌<◌, length, take};
ghost use Rattle.pauli_word.specs.Limits.{word_length};
ghost use Rattle.keyed.specs.Keyed.{slot_of};
ghost use Rattle.pauli_word.specs.Bytes.{plane_bits};
ghost use Rattle.pauli_word.specs.Calls.{order_of_bits};
ghost use Rattle.row_lists.specs.Rows.{row_at};
ghost use Rattle.row_words.specs.Words.{less_bytes};
ghost use Rattle.row_words.specs.Held.{slot_found, Places};

use pauli_word::WORD_BYTES;
use std::cmp::Ordering;

// How row a's word stands to row b's.
pub fn compare_rows(words: &[u8], a: usize, b: usize) -> Ordering
    requires word_length_in_bounds { word_length * a + word_length ≤ length words.now }
    requires word_length_in_bounds_2 { word_length * b + word_length ≤ length words.now }
    ensures { result ≡ order_of_bits (plane_bits (row_at words.now a)) (plane_bits (row_at words.now b)) }
{
    let left = WORD_BYTES * a;
    let right = WORD_BYTES * b;
    pauli_word::inner::compare_bytes(
        &words[left..left + WORD_BYTES],
        &words[right..right + WORD_BYTES],
    )
}

// Where the word of a row stands among those of the first `used` positions, which are in rising order, or where it would be put in, by halving. At
// most 13 comparisons.
pub fn slot_of(words: &[u8], positions: &[u16], used: usize, row: usize) -> Result<usize, usize>
    requires { Places words.now positions.now used row }
    ensures { slot_found result ≡ slot_of less_bytes (row_at words.now row) (map (row_at words.now) (take used positions.now)) }
{
    let mut low = 0;
    let mut high = used;
    // A while, and not `binary_search_by`: that takes a test that may be called on any position, and rows compare only where they stand in the list.
    while low < high {
        let middle = low + (high - low) / 2;
        let at = positions[middle] as usize;
        match compare_rows(words, at, row) {
            Ordering::Less => {
                low = middle + 1;
            }
            Ordering::Greater => {
                high = middle;
            }
            Ordering::Equal => {
                return Ok(middle);
            }
        }
    }
    Err(low)
}

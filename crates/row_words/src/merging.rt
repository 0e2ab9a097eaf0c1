// The words of rows merged one after the other. What is kept in rising order is the positions of the rows that have a word first, two bytes each;
// a row's home is the first row that has its word. Whoever calls a function here owes its `requires`.
ghost use Rattle.std.specs.Prelude.{◌≡◌, ◌+◌, ◌*◌, ◌/◌, ◌≤◌, ◌<◌, length, take};
ghost use Rattle.pauli_word.specs.Limits.{word_length};
ghost use Rattle.keyed.specs.Keyed.{insert_at};
ghost use Rattle.row_lists.specs.Rows.{max_rows};
ghost use Rattle.row_words.specs.Held.{Held};

use crate::search;

// Puts a row in before place k of the first `used` positions; those from k on move up by one.
pub fn insert(positions: &mut [u16], used: usize, k: usize, row: u16)
    requires k_le_used { k ≤ used }
    requires used_in_bounds { used < length positions.old }
    ensures length { length positions.new ≡ length positions.old }
    ensures list { take (used + 1) positions.new ≡ insert_at k row (take used positions.old) }
{
    for i in (k..used).rev() {
        positions[i + 1] = positions[i];
    }
    positions[k] = row;
}

// Merges the next row: how many different words there are with it.
pub fn merge_row(
    words: &[u8],
    positions: &mut [u16],
    homes: &mut [u16],
    used: usize,
    row: usize,
) -> usize
    requires held { Held words.now row used positions.old homes.old }
    requires word_length_in_bounds { word_length * row + word_length ≤ length words.now }
    ensures { Held words.now (row + 1) result positions.new homes.new }
{
    match search::slot_of(words, positions, used, row) {
        Ok(k) => {
            homes[row] = positions[k];
            used
        }
        Err(k) => {
            insert(positions, used, k, row as u16);
            homes[row] = row as u16;
            used + 1
        }
    }
}

// Merges the first `rows` rows in their order: how many different words there are.
pub fn merge_rows(words: &[u8], rows: usize, positions: &mut [u16], homes: &mut [u16]) -> usize
    requires word_length_len_bound { length words.now / word_length ≤ max_rows }
    requires rows_in_bounds { word_length * rows ≤ length words.now }
    requires positions_len { length positions.old ≡ max_rows }
    requires homes_len { length homes.old ≡ max_rows }
    ensures { Held words.now rows result positions.new homes.new }
{
    let mut used = 0;
    for i in 0..rows {
        used = merge_row(words, positions, homes, used, i);
    }
    used
}

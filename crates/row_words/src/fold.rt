// The words of rows folded where they stand. Whoever calls a function here owes its `requires`.
ghost use Rattle.std.specs.Prelude.{◌≡◌, ◌++◌, ℕ, ◌-◌, ◌*◌, ◌/◌, ◌≤◌, ◌<◌, length, get_or, replicate};
ghost use Rattle.pauli_word.specs.Limits.{word_length};
ghost use Rattle.row_lists.specs.Rows.{max_rows, join_rows};
ghost use Rattle.row_words.specs.Words.{different_words, RowPlaces};

use crate::merging;
use row_lists::MAX_ROWS;

// Writes over each row's home the place of that home.
pub fn place_homes(owners: &[u16], rows: usize, homes: &mut [u16])
    requires owners_len { length owners.now ≡ max_rows }
    requires homes_len { length homes.old ≡ max_rows }
    requires rows_le_max_rows { rows ≤ max_rows }
    requires by_index { (i : ℕ) → i < rows → get_or homes.old i 0 < max_rows }
    ensures long { length homes.new ≡ max_rows }
    ensures owned { (i : ℕ) → i < rows → get_or homes.new i 0 ≡ get_or owners.now (get_or homes.old i 0) 0 }
{
    for i in 0..rows {
        let home = homes[i] as usize;
        homes[i] = owners[home];
    }
}

// Folds the words of the first `rows` rows of a list: each different word once, in rising order, and zeros after the last; and the place of each
// row's word among them. It answers how many different words there are. At most 13 comparisons of words a row.
pub fn fold_words(words: &mut [u8], rows: usize, places: &mut [u16]) -> usize
    requires word_length_len_bound { length words.old / word_length ≤ max_rows }
    requires rows_in_bounds { word_length * rows ≤ length words.old }
    requires places_len { length places.old ≡ max_rows }
    ensures used { result ≡ length (different_words words.old rows) }
    ensures words { words.new ≡ join_rows (different_words words.old rows) ++ replicate (length words.old - word_length * length (different_words words.old rows)) 0 }
    ensures places { RowPlaces words.old rows places.new }
{
    let mut positions = [0u16; MAX_ROWS];
    let used = merging::merge_rows(words, rows, &mut positions, places);
    let mut owners = [0u16; MAX_ROWS];
    row_lists::places::own(&positions, used, &mut owners);
    place_homes(&owners, rows, places);
    row_lists::places::arrange(&mut positions, used, words);
    used
}

// Rows exchanged where they stand. Whoever calls a function here owes its `requires`.
ghost use Rattle.std.specs.Prelude.{◌≡◌, ◌+◌, ◌*◌, ◌≤◌, ◌<◌, length, get_or};
ghost use Rattle.pauli_word.specs.Limits.{word_length};
ghost use Rattle.row_lists.specs.Rows.{max_rows, row_at, with_row, rows_swapped};
ghost use Rattle.row_lists.specs.Arranging.{told_positions, told_owners};

use pauli_word::WORD_BYTES;

// The bytes of one row.
pub fn row_of(words: &[u8], row: usize) -> [u8; WORD_BYTES]
    requires { word_length * row + word_length ≤ length words.now }
    ensures { result ≡ row_at words.now row }
{
    let start = WORD_BYTES * row;
    let end = start + WORD_BYTES;
    let mut out = [0u8; WORD_BYTES];
    pauli_word::inner::copy(&words[start..end], &mut out);
    out
}

// Writes over a row.
pub fn put_row(words: &mut [u8], row: usize, bytes: &[u8])
    requires word_length_in_bounds { word_length * row + word_length ≤ length words.old }
    requires bytes_len { length bytes.now ≡ word_length }
    ensures { words.new ≡ with_row words.old row bytes.now }
{
    let start = WORD_BYTES * row;
    let end = start + WORD_BYTES;
    pauli_word::inner::copy(bytes, &mut words[start..end]);
}

// Exchanges two rows of words.
pub fn swap_words(words: &mut [u8], a: usize, b: usize)
    requires word_length_in_bounds { word_length * a + word_length ≤ length words.old }
    requires word_length_in_bounds_2 { word_length * b + word_length ≤ length words.old }
    ensures { words.new ≡ rows_swapped words.old a b }
{
    let left = row_of(words, a);
    let right = row_of(words, b);
    put_row(words, a, &right);
    put_row(words, b, &left);
}

// Tells the place that the row which stood at k is for, if there is one, that this row stands at `from` now.
pub fn tell_owner(positions: &mut [u16], owners: &mut [u16], k: usize, from: usize)
    requires positions_len { length positions.old ≡ max_rows }
    requires owners_len { length owners.old ≡ max_rows }
    requires k_lt_max_rows { k < max_rows }
    requires from_lt_max_rows { from < max_rows }
    requires k_bound { get_or owners.old k 0 < max_rows }
    ensures positions { positions.new ≡ told_positions positions.old owners.old k from }
    ensures owners { owners.new ≡ told_owners positions.old owners.old k from }
{
    let owner = owners[k] as usize;
    let wanted = positions[owner] as usize;
    if wanted == k {
        positions[owner] = from as u16;
        owners[from] = owner as u16;
    }
}

// Puts the row that is for place k there, and the row that stood there where the other was.
pub fn place_row(positions: &mut [u16], owners: &mut [u16], k: usize, words: &mut [u8])
    requires positions_len { length positions.old ≡ max_rows }
    requires owners_len { length owners.old ≡ max_rows }
    requires k_lt_max_rows { k < max_rows }
    requires k_bound { get_or positions.old k 0 < max_rows }
    requires k_bound_2 { get_or owners.old k 0 < max_rows }
    requires word_length_in_bounds { word_length * k + word_length ≤ length words.old }
    requires word_length_in_bounds_2 { word_length * get_or positions.old k 0 + word_length ≤ length words.old }
    ensures positions { positions.new ≡ told_positions positions.old owners.old k (get_or positions.old k 0) }
    ensures owners { owners.new ≡ told_owners positions.old owners.old k (get_or positions.old k 0) }
    ensures words { words.new ≡ rows_swapped words.old k (get_or positions.old k 0) }
{
    let from = positions[k] as usize;
    swap_words(words, k, from);
    tell_owner(positions, owners, k, from);
}

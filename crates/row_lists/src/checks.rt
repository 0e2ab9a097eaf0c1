// What is checked of the lists of a sum whatever its contents are: 22, 23, 36, and 17 of a row; the same of rows of words alone; and rows in full.
// Whoever calls a function here owes its `requires`.
ghost use Rattle.std.specs.Prelude.{◌≡◌, [], ◌∷◌, ◌+◌, ◌*◌, ◌≤◌, length};
ghost use Rattle.outcome.specs.Outcome.{outcome_of, verdict};
ghost use Rattle.pauli_word.specs.Bytes.{EitherLength, in_full};
ghost use Rattle.row_lists.specs.Rows.{row_by, row_size, in_full_by};
ghost use Rattle.row_lists.specs.Checks.{rows_agree, other_rows, many_rows, old_rows, bit_above_sites, bits_above_sites, word_list_checks};

use crate::MAX_ROWS;
use outcome::Refusal;
use pauli_word::{OLD_WORD_BYTES, WORD_BYTES};

// Whether all lists have as many rows, by the lengths of the input's words and contents, and of the output's words and its two other lists. The
// input's words all have one form, the output's are in full.
pub fn rows_agree(words: usize, rows: usize, leasts: usize, first: usize, second: usize) -> bool
    ensures { result ≡ rows_agree words rows leasts first second }
{
    if leasts % WORD_BYTES != 0 {
        return false;
    }
    if leasts / WORD_BYTES != rows {
        return false;
    }
    if first != rows {
        return false;
    }
    if second != rows {
        return false;
    }
    if words == leasts {
        return true;
    }
    if words % OLD_WORD_BYTES != 0 {
        return false;
    }
    words / OLD_WORD_BYTES == rows
}

// The bytes of an input row, by the length of the words and how many rows there are.
pub fn row_size(words: usize, rows: usize) -> usize
    ensures { result ≡ row_size words rows }
{
    if words % WORD_BYTES != 0 {
        return OLD_WORD_BYTES;
    }
    if words / WORD_BYTES == rows {
        WORD_BYTES
    } else {
        OLD_WORD_BYTES
    }
}

// The checks of the lists' lengths: 22, 23, 36.
pub fn lengths_checked(
    sites: usize,
    words: usize,
    rows: usize,
    leasts: usize,
    first: usize,
    second: usize,
) -> Result<(), Refusal>
    ensures { outcome_of result ≡ verdict (other_rows words rows leasts first second ∷ many_rows rows ∷ old_rows sites words rows ∷ []) }
{
    if !rows_agree(words, rows, leasts, first, second) {
        return Err(Refusal::SumLists);
    }
    if MAX_ROWS < rows {
        return Err(Refusal::TooManyRows);
    }
    if pauli_word::inner::past_old(sites, row_size(words, rows)) {
        return Err(Refusal::OldWordSites);
    }
    Ok(())
}

// The word of row i in full, of rows of this many bytes.
pub fn row_in_full(words: &[u8], size: usize, i: usize) -> [u8; WORD_BYTES]
    requires either_length { EitherLength size }
    requires size_in_bounds { size * i + size ≤ length words.now }
    ensures { result ≡ in_full (row_by size words.now i) }
{
    let at = size * i;
    let end = at + size;
    pauli_word::inner::in_full(&words[at..end])
}

// The check of row i's word: 17.
pub fn word_checked(sites: usize, words: &[u8], size: usize, i: usize) -> Result<(), Refusal>
    requires either_length { EitherLength size }
    requires size_in_bounds { size * i + size ≤ length words.now }
    ensures { outcome_of result ≡ verdict (bit_above_sites sites i (in_full (row_by size words.now i)) ∷ []) }
{
    let at = size * i;
    let end = at + size;
    if pauli_word::inner::clear_above(sites, &words[at..end]) {
        Ok(())
    } else {
        Err(Refusal::RowBitAboveSites(i))
    }
}

// The check of each row's word, in their order: 17.
pub fn words_checked(sites: usize, words: &[u8], size: usize, rows: usize) -> Result<(), Refusal>
    requires { EitherLength size × (length words.now ≡ size * rows) }
    ensures { outcome_of result ≡ verdict (bits_above_sites sites (in_full_by size rows words.now) 0 rows) }
{
    for i in 0..rows {
        word_checked(sites, words, size, i)?;
    }
    Ok(())
}

// The checks of the lists of a call on rows of words alone: 22, 23, 36, and then 17 of each row.
pub fn word_lists_checked(
    sites: usize,
    words: &[u8],
    rows: usize,
    leasts: usize,
    first: usize,
    second: usize,
) -> Result<(), Refusal>
    ensures { outcome_of result ≡ verdict (word_list_checks sites words.now rows leasts first second) }
{
    let size = row_size(words.len(), rows);
    lengths_checked(sites, words.len(), rows, leasts, first, second)?;
    words_checked(sites, words, size, rows)
}

// The rows of a sum folded in the lists that hold them. Whoever calls a function here owes its `requires`.
ghost use Rattle.std.specs.Prelude.{◌≡◌, ◌*◌, ◌≤◌, length};
ghost use Rattle.outcome.specs.Outcome.{outcome_of, on_answer};
ghost use Rattle.pauli_word.specs.Limits.{word_length};
ghost use Rattle.row_lists.specs.Rows.{max_rows, rows_in};
ghost use Rattle.row_words.specs.Words.{words_filled};
ghost use Rattle.sum_rows.specs.Sums.{fold_outcome, sums_filled, counts_filled, handed_back};
ghost use Rattle.sum_rows.specs.Rows.{byte_sums};

use crate::adding;
use outcome::Refusal;
use row_lists::MAX_ROWS;

// Folds the rows of a sum where they stand: each word once, in rising order, with its coefficient and how many rows it has, and zeros after the
// last; or, with all three lists zero, the first row that makes a running sum not finite. At most 13 comparisons of words a row.
pub fn fold_rows(
    coefficients: &[f64],
    words: &mut [u8],
    sums: &mut [f64],
    counts: &mut [u32],
) -> Result<usize, Refusal>
    requires coefficients_len_bound { length coefficients.now ≤ max_rows }
    requires words_len { length words.old ≡ word_length * length coefficients.now }
    requires sums_len { length sums.old ≡ length coefficients.now }
    requires counts_len { length counts.old ≡ length coefficients.now }
    ensures answer { outcome_of result ≡ on_answer length (fold_outcome byte_sums (rows_in words.old coefficients.now)) }
    ensures words { words.new ≡ words_filled (length coefficients.now) (handed_back (fold_outcome byte_sums (rows_in words.old coefficients.now))) }
    ensures sums { sums.new ≡ sums_filled (length coefficients.now) (handed_back (fold_outcome byte_sums (rows_in words.old coefficients.now))) }
    ensures counts { counts.new ≡ counts_filled (length coefficients.now) (handed_back (fold_outcome byte_sums (rows_in words.old coefficients.now))) }
{
    let mut places = [0u16; MAX_ROWS];
    let used = row_words::fold::fold_words(words, coefficients.len(), &mut places);
    adding::clear(sums, counts);
    match adding::add_rows(coefficients, &places, sums, counts) {
        Ok(()) => Ok(used),
        Err(why) => {
            row_lists::zeros::bytes_from(words, 0);
            adding::clear(sums, counts);
            Err(why)
        }
    }
}

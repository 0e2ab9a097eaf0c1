// Sums of Pauli words with real coefficients, folded onto representatives: each word becomes the least of its orbit, and the coefficients of
// equal ones add.
//
// The call here asks nothing of its caller: bad input is refused by number, and the lent lists are then as they were; beside 25 they are zero.
#![tactic(auto)]

mod checks;
mod rows;

ghost use Rattle.std.specs.Prelude.{◌≡◌, length};
ghost use Rattle.outcome.specs.Outcome.{outcome_of, on_answer};
ghost use Rattle.group.specs.Value.{group_lent};
ghost use Rattle.merge.specs.Calls.{sum_outcome, words_after, sums_after, counts_after};

use outcome::Refusal;
use permutation::Lent;

// Folds a sum onto representatives. Row i of the sum is word i of `words`, which all have one form, and coefficient i. The output lists
// have as many rows, with words in full; each output row is a representative, the sum of the coefficients of the rows that have it, added to
// 0.0 in input order, and how many rows these are. Rows stand in rising order of their words, zero sums stay, and zeros come after the last
// row. It answers how many output rows there are. Each word's orbit is walked once.
pub fn canonicalize_pauli_sum(
    group: &Lent<'_>,
    words: &[u8],
    coefficients: &[f64],
    representatives: &mut [u8],
    sums: &mut [f64],
    counts: &mut [u32],
) -> Result<usize, Refusal>
    ensures answer { outcome_of result ≡ on_answer length (sum_outcome (group_lent group.now) words.now coefficients.now representatives.old sums.old counts.old) }
    ensures representatives { representatives.new ≡ words_after (group_lent group.now) words.now coefficients.now representatives.old sums.old counts.old }
    ensures sums { sums.new ≡ sums_after (group_lent group.now) words.now coefficients.now representatives.old sums.old counts.old }
    ensures counts { counts.new ≡ counts_after (group_lent group.now) words.now coefficients.now representatives.old sums.old counts.old }
{
    checks::sum_checked(
        group,
        words,
        coefficients,
        representatives.len(),
        sums.len(),
        counts.len(),
    )?;
    let rows = coefficients.len();
    let size = row_lists::checks::row_size(words.len(), rows);
    rows::representatives(group, words, size, rows, representatives);
    sum_rows::fold::fold_rows(coefficients, representatives, sums, counts)
}

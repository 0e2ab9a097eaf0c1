// The checks of a sum: 1, 14, 22, 23, 36, and then its rows in order, each for 17 and 24. Whoever calls a function here owes its `requires`.
ghost use Rattle.std.specs.Prelude.{◌≡◌, ◌*◌, ◌<◌, length, get_or};
ghost use Rattle.std.specs.Float.{nan};
ghost use Rattle.outcome.specs.Outcome.{outcome_of, verdict};
ghost use Rattle.pauli_word.specs.Bytes.{EitherLength, in_full};
ghost use Rattle.row_lists.specs.Rows.{row_by, rows_in, in_full_by};
ghost use Rattle.row_lists.specs.Checks.{row_rules, row_checks, list_checks};
ghost use Rattle.group.specs.Value.{group_lent};
ghost use Rattle.merge.specs.Calls.{not_finite, sum_checks};

use outcome::Refusal;
use permutation::{Lent, MAX_GENERATORS, TARGET_PLACES};

// The checks of row i, of rows of this many bytes: 17, 24.
pub fn row_checked(
    sites: usize,
    words: &[u8],
    size: usize,
    coefficients: &[f64],
    i: usize,
) -> Result<(), Refusal>
    requires either_length { EitherLength size × (length words.now ≡ size * length coefficients.now) }
    requires i_in_bounds { i < length coefficients.now }
    ensures { outcome_of result ≡ verdict (row_rules sites i (in_full (row_by size words.now i)) (not_finite i (get_or coefficients.now i nan))) }
{
    row_lists::checks::word_checked(sites, words, size, i)?;
    if sum_rows::row_sum::is_finite(coefficients[i]) {
        Ok(())
    } else {
        Err(Refusal::NotFinite(i))
    }
}

// The checks of the rows, in their order.
pub fn rows_checked(
    sites: usize,
    words: &[u8],
    size: usize,
    coefficients: &[f64],
) -> Result<(), Refusal>
    requires { EitherLength size × (length words.now ≡ size * length coefficients.now) }
    ensures { outcome_of result ≡ verdict (row_checks not_finite sites 0 (rows_in (in_full_by size (length coefficients.now) words.now) coefficients.now)) }
{
    for i in 0..coefficients.len() {
        row_checked(sites, words, size, coefficients, i)?;
    }
    Ok(())
}

// The checks of the lists: 22, 23, 36, and then the rows.
pub fn lists_checked(
    sites: usize,
    words: &[u8],
    coefficients: &[f64],
    representatives: usize,
    sums: usize,
    counts: usize,
) -> Result<(), Refusal>
    ensures { outcome_of result ≡ verdict (list_checks not_finite sites words.now coefficients.now representatives sums counts) }
{
    let rows = coefficients.len();
    let size = row_lists::checks::row_size(words.len(), rows);
    row_lists::checks::lengths_checked(sites, words.len(), rows, representatives, sums, counts)?;
    rows_checked(sites, words, size, coefficients)
}

// All checks of a sum.
pub fn sum_checked(
    group: &Lent<'_>,
    words: &[u8],
    coefficients: &[f64],
    representatives: usize,
    sums: usize,
    counts: usize,
) -> Result<(), Refusal>
    ensures { outcome_of result ≡ verdict (sum_checks (group_lent group.now) words.now coefficients.now representatives sums counts) }
{
    let Lent { sites, .. } = *group;
    group::inner::value_checked(group)?;
    lists_checked(sites, words, coefficients, representatives, sums, counts)
}

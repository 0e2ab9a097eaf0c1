// Sums folded onto representatives.
ghost use Rattle.std.specs.Prelude.{◌≡◌, length};
ghost use Rattle.outcome.specs.Outcome.{or_else};
ghost use Rattle.merge.specs.Calls.{sum_outcome, words_after, sums_after, counts_after};
ghost use Rattle.group.specs.Value.{group_in};
ghost use Rattle.c_api.specs.Told.{number_of, values_of};

use crate::{VALUES, told};
use permutation::{Lent, MAX_GENERATORS, TARGET_PLACES};

// Folds a sum onto representatives: rows of a word, all in one form, and a coefficient each. The three output lists have as many rows; each output row is a
// representative, the sum of the coefficients of the rows that have it, added to 0.0 in input order, and how many rows these are, in rising order of the
// words, with zeros after the last row. `rows` takes how many there are.
#[unsafe(no_mangle)]
pub extern "C" fn gomurin_canonicalize_pauli_sum<'a>(
    sites: usize,
    generators: usize,
    orders: &'a [u32; MAX_GENERATORS],
    targets: &'a [u16; TARGET_PLACES],
    words: &[u8],
    coefficients: &[f64],
    representatives: &mut [u8],
    sums: &mut [f64],
    counts: &mut [u32],
    rows: &mut usize,
    values: &mut [usize; VALUES],
) -> usize
    ensures number { result ≡ number_of (sum_outcome (group_in sites generators orders.now targets.now) words.now coefficients.now representatives.old sums.old counts.old) }
    ensures representatives { representatives.new ≡ words_after (group_in sites generators orders.now targets.now) words.now coefficients.now representatives.old sums.old counts.old }
    ensures sums { sums.new ≡ sums_after (group_in sites generators orders.now targets.now) words.now coefficients.now representatives.old sums.old counts.old }
    ensures counts { counts.new ≡ counts_after (group_in sites generators orders.now targets.now) words.now coefficients.now representatives.old sums.old counts.old }
    ensures rows { rows.new ≡ or_else length 0 (sum_outcome (group_in sites generators orders.now targets.now) words.now coefficients.now representatives.old sums.old counts.old) }
    ensures values { values.new ≡ values_of (sum_outcome (group_in sites generators orders.now targets.now) words.now coefficients.now representatives.old sums.old counts.old) }
{
    let group = Lent {
        sites,
        generators,
        orders,
        targets,
    };
    let answer = merge::canonicalize_pauli_sum(
        &group,
        words,
        coefficients,
        representatives,
        sums,
        counts,
    );
    told::number(answer, rows, values)
}

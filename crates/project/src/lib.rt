// Sums of Pauli words with whole coefficients, projected onto a momentum sector: each word of a kept orbit becomes the least of its orbit, its
// coefficient is turned by its phase, and the coefficients of equal words add. Sums are whole numbers, exactly.
//
// The call here asks nothing of its caller: bad input is refused by number, and the lent lists are then as they were.
#![tactic(auto)]

mod checks;
mod folds;
mod rows;

ghost use Rattle.std.specs.Prelude.{◌≡◌, length};
ghost use Rattle.outcome.specs.Outcome.{outcome_of, on_answer};
ghost use Rattle.group.specs.Value.{group_lent};
ghost use Rattle.project.specs.Calls.{project_outcome, projection_of, words_after, cosines_after, sines_after};

use outcome::Refusal;
use permutation::Lent;
use phases::PhaseTable;

// Coefficients lie in -MAX_COEFFICIENT .. MAX_COEFFICIENT.
pub const MAX_COEFFICIENT: i64 = 1048576;

// What projecting a sum comes to: how many rows have a kept orbit, and how many a dropped one.
#[derive(Clone, Copy)]
pub struct Projection {
    pub kept: usize,
    pub dropped: usize,
}

// Projects a sum onto the sector of a mode list, by a phase table: the constant one (`phases::phase_table`) or any that passes (`phases::passes`). Row
// i of the sum is word i of `words`, which all have one form, and coefficient i. The output lists have as many rows, with words in full; each output
// row is the representative of a kept orbit that some row has, and the sum over its rows of the coefficient times the cosine, and times the sine, of
// the row's phase, in units of 2^-30. The phase of a row is the character of an index that carries the representative to the row's word; which one
// does not matter. Rows stand in rising order of their words, zero sums stay, and zeros come after the last row. It answers how many rows are kept and
// how many dropped. Each word's orbit is walked once, and the table is tested once a call.
pub fn project_pauli_sum(
    table: PhaseTable,
    group: &Lent<'_>,
    modes: &[i32],
    words: &[u8],
    coefficients: &[i64],
    representatives: &mut [u8],
    cosines: &mut [i64],
    sines: &mut [i64],
) -> Result<Projection, Refusal>
    ensures answer { outcome_of result ≡ on_answer projection_of (project_outcome table (group_lent group.now) modes.now words.now coefficients.now (length representatives.old) (length cosines.old) (length sines.old)) }
    ensures representatives { representatives.new ≡ words_after representatives.old (length coefficients.now) (project_outcome table (group_lent group.now) modes.now words.now coefficients.now (length representatives.old) (length cosines.old) (length sines.old)) }
    ensures cosines { cosines.new ≡ cosines_after cosines.old (length coefficients.now) (project_outcome table (group_lent group.now) modes.now words.now coefficients.now (length representatives.old) (length cosines.old) (length sines.old)) }
    ensures sines { sines.new ≡ sines_after sines.old (length coefficients.now) (project_outcome table (group_lent group.now) modes.now words.now coefficients.now (length representatives.old) (length cosines.old) (length sines.old)) }
{
    checks::projection_checked(
        table,
        group,
        modes,
        words,
        coefficients,
        representatives.len(),
        cosines.len(),
        sines.len(),
    )?;
    let size = row_lists::checks::row_size(words.len(), coefficients.len());
    let kept = rows::project(
        table,
        group,
        modes,
        words,
        size,
        coefficients,
        representatives,
        cosines,
        sines,
    );
    Ok(Projection {
        kept,
        dropped: coefficients.len() - kept,
    })
}

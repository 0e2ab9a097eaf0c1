// The checks of a projected sum: 1, 14, 18, 32, 35, 22, 23, 36, and then its rows in order, each for 17 and 33. Whoever calls a function here owes its
// `requires`.
ghost use Rattle.std.specs.Prelude.{◌≡◌, [], ◌∷◌, ◌*◌, ◌<◌, pos, length, get_or};
ghost use Rattle.outcome.specs.Outcome.{answer, outcome_of, verdict};
ghost use Rattle.pauli_word.specs.Bytes.{EitherLength, in_full};
ghost use Rattle.group.specs.Value.{group_lent};
ghost use Rattle.group.specs.Calls.{value_checks};
ghost use Rattle.momentum.specs.Calls.{mode_count};
ghost use Rattle.row_lists.specs.Rows.{row_by, rows_in, in_full_by};
ghost use Rattle.row_lists.specs.Checks.{row_rules, row_checks, list_checks};
ghost use Rattle.phases.specs.Rules.{in_range};
ghost use Rattle.phases.specs.Checks.{broken_table};
ghost use Rattle.project.specs.Calls.{max_coefficient, other_modulus, out_of_range, project_checks};

use crate::MAX_COEFFICIENT;
use outcome::Refusal;
use permutation::{Lent, MAX_GENERATORS, TARGET_PLACES};
use phases::{PHASES, PhaseTable};

// Whether a coefficient is in its range.
pub fn in_range(coefficient: i64) -> bool
    ensures { result ≡ in_range max_coefficient coefficient }
{
    if coefficient < -MAX_COEFFICIENT {
        return false;
    }
    coefficient <= MAX_COEFFICIENT
}

// The checks of row i, of rows of this many bytes: 17, 33.
pub fn row_checked(
    sites: usize,
    words: &[u8],
    size: usize,
    coefficients: &[i64],
    i: usize,
) -> Result<(), Refusal>
    requires either_length { EitherLength size × (length words.now ≡ size * length coefficients.now) }
    requires i_in_bounds { i < length coefficients.now }
    ensures { outcome_of result ≡ verdict (row_rules sites i (in_full (row_by size words.now i)) (out_of_range i (get_or coefficients.now i (pos 0)))) }
{
    row_lists::checks::word_checked(sites, words, size, i)?;
    if in_range(coefficients[i]) {
        Ok(())
    } else {
        Err(Refusal::CoefficientRange(i))
    }
}

// The checks of the rows, in their order.
pub fn rows_checked(
    sites: usize,
    words: &[u8],
    size: usize,
    coefficients: &[i64],
) -> Result<(), Refusal>
    requires { EitherLength size × (length words.now ≡ size * length coefficients.now) }
    ensures { outcome_of result ≡ verdict (row_checks out_of_range sites 0 (rows_in (in_full_by size (length coefficients.now) words.now) coefficients.now)) }
{
    for i in 0..coefficients.len() {
        row_checked(sites, words, size, coefficients, i)?;
    }
    Ok(())
}

// The checks of the lists: 22, 23, 36, and then the rows.
pub fn lists_checked(
    sites: usize,
    words: &[u8],
    coefficients: &[i64],
    leasts: usize,
    first: usize,
    second: usize,
) -> Result<(), Refusal>
    ensures { outcome_of result ≡ verdict (list_checks out_of_range sites words.now coefficients.now leasts first second) }
{
    let rows = coefficients.len();
    let size = row_lists::checks::row_size(words.len(), rows);
    row_lists::checks::lengths_checked(sites, words.len(), rows, leasts, first, second)?;
    rows_checked(sites, words, size, coefficients)
}

// The checks of the modes and the table: 18, 32, 35.
pub fn sector_checked(table: PhaseTable, group: &Lent<'_>, modes: &[i32]) -> Result<(), Refusal>
    requires { verdict (value_checks (group_lent group.now)) ≡ answer tt }
    ensures { outcome_of result ≡ verdict (mode_count (group_lent group.now) modes.now ∷ other_modulus (group_lent group.now) ∷ broken_table table ∷ []) }
{
    let Lent { generators, .. } = *group;
    if modes.len() != generators {
        return Err(Refusal::ModeCount);
    }
    if PHASES % elements::index::phase_modulus(group) != 0 {
        return Err(Refusal::PhaseModulus);
    }
    if phases::passes(table) {
        Ok(())
    } else {
        Err(Refusal::PhaseRule)
    }
}

// All checks of a projected sum.
pub fn projection_checked(
    table: PhaseTable,
    group: &Lent<'_>,
    modes: &[i32],
    words: &[u8],
    coefficients: &[i64],
    leasts: usize,
    first: usize,
    second: usize,
) -> Result<(), Refusal>
    ensures { outcome_of result ≡ verdict (project_checks table (group_lent group.now) modes.now words.now coefficients.now leasts first second) }
{
    let Lent { sites, .. } = *group;
    group::inner::value_checked(group)?;
    sector_checked(table, group, modes)?;
    lists_checked(sites, words, coefficients, leasts, first, second)
}

// Sums projected onto a momentum sector.
ghost use Rattle.std.specs.Prelude.{◌≡◌, length};
ghost use Rattle.outcome.specs.Outcome.{or_else};
ghost use Rattle.phases.specs.Rules.{table_of};
ghost use Rattle.project.specs.Calls.{project_outcome, words_after, cosines_after, sines_after};
ghost use Rattle.group.specs.Value.{group_in};
ghost use Rattle.c_api.specs.Told.{number_of, values_of, rows_kept, rows_dropped};

use crate::{VALUES, told};
use permutation::{Lent, MAX_GENERATORS, TARGET_PLACES};
use phases::PHASES;

// Projects a sum onto the sector of a mode list, by a phase table: rows of a word, all in one form, and a whole coefficient each. The three output lists have as
// many rows; each output row is the representative of a kept orbit, and the sums over its rows of the coefficient times the cosine, and times the sine, of
// the row's phase, in units of 2^-30, in rising order of the words, with zeros after the last row. `kept` and `dropped` take how many input rows are so.
#[unsafe(no_mangle)]
pub extern "C" fn gomurin_project_pauli_sum<'a>(
    table_cosines: &[i64; PHASES],
    table_sines: &[i64; PHASES],
    sites: usize,
    generators: usize,
    orders: &'a [u32; MAX_GENERATORS],
    targets: &'a [u16; TARGET_PLACES],
    modes: &[i32],
    words: &[u8],
    coefficients: &[i64],
    representatives: &mut [u8],
    cosines: &mut [i64],
    sines: &mut [i64],
    kept: &mut usize,
    dropped: &mut usize,
    values: &mut [usize; VALUES],
) -> usize
    ensures number { result ≡ number_of (project_outcome (table_of table_cosines.now table_sines.now) (group_in sites generators orders.now targets.now) modes.now words.now coefficients.now (length representatives.old) (length cosines.old) (length sines.old)) }
    ensures representatives { representatives.new ≡ words_after representatives.old (length coefficients.now) (project_outcome (table_of table_cosines.now table_sines.now) (group_in sites generators orders.now targets.now) modes.now words.now coefficients.now (length representatives.old) (length cosines.old) (length sines.old)) }
    ensures cosines { cosines.new ≡ cosines_after cosines.old (length coefficients.now) (project_outcome (table_of table_cosines.now table_sines.now) (group_in sites generators orders.now targets.now) modes.now words.now coefficients.now (length representatives.old) (length cosines.old) (length sines.old)) }
    ensures sines { sines.new ≡ sines_after sines.old (length coefficients.now) (project_outcome (table_of table_cosines.now table_sines.now) (group_in sites generators orders.now targets.now) modes.now words.now coefficients.now (length representatives.old) (length cosines.old) (length sines.old)) }
    ensures kept { kept.new ≡ or_else rows_kept 0 (project_outcome (table_of table_cosines.now table_sines.now) (group_in sites generators orders.now targets.now) modes.now words.now coefficients.now (length representatives.old) (length cosines.old) (length sines.old)) }
    ensures dropped { dropped.new ≡ or_else rows_dropped 0 (project_outcome (table_of table_cosines.now table_sines.now) (group_in sites generators orders.now targets.now) modes.now words.now coefficients.now (length representatives.old) (length cosines.old) (length sines.old)) }
    ensures values { values.new ≡ values_of (project_outcome (table_of table_cosines.now table_sines.now) (group_in sites generators orders.now targets.now) modes.now words.now coefficients.now (length representatives.old) (length cosines.old) (length sines.old)) }
{
    let group = Lent {
        sites,
        generators,
        orders,
        targets,
    };
    let table = told::table_in(table_cosines, table_sines);
    let answer = project::project_pauli_sum(
        table,
        &group,
        modes,
        words,
        coefficients,
        representatives,
        cosines,
        sines,
    );
    told::projection(answer, kept, dropped, values)
}

// A phase table of a buyer's own, read from a file: the line `cos sin`, and then 720 lines of two numbers, the cosine and the sine of each step of
// a turn in units of 2^-30.
//
// The call here asks nothing of its caller. A file that is refused hands back the constant table.
#![tactic(auto)]

pub mod answer;
mod file_lines;

ghost use Rattle.std.specs.Prelude.{◌≡◌, cond, [], ◌∷◌};
ghost use Rattle.outcome.specs.Outcome.{answer, unless};
ghost use Rattle.phases.specs.Table.{phase_table};
ghost use Rattle.phases.specs.Rules.{passes};
ghost use Rattle.phases.specs.Checks.{broken_table};
ghost use Rattle.phase_file.specs.File.{file_outcome, table_after};
ghost use Rattle.phase_file.specs.Calls.{outcome_of_file, table_handed};

use outcome::Refusal;
use phases::{PHASES, PhaseTable};

// The most bytes of a file.
pub const MAX_FILE: usize = 65536;

// A file that is refused: the rule that it breaks, and the table that stands after it, the constant one.
#[derive(Clone, Copy)]
pub struct RefusedFile {
    pub why: Refusal,
    pub table: PhaseTable,
}

// Reads the file of a phase table. 34: too many bytes or another form; 35: a number out of -2^30 .. 2^30, or a broken rule of phase tables.
pub fn read_phase_table(file: &[u8]) -> Result<PhaseTable, RefusedFile>
    ensures answer { outcome_of_file result ≡ file_outcome file.now }
    ensures table { table_handed result ≡ table_after (file_outcome file.now) }
{
    if MAX_FILE < file.len() {
        return Err(refused(Refusal::PhaseForm));
    }
    let mut cosines = [0i64; PHASES];
    let mut sines = [0i64; PHASES];
    if !file_lines::read_file(file, &mut cosines, &mut sines) {
        return Err(refused(Refusal::PhaseForm));
    }
    tested(PhaseTable { cosines, sines })
}

// A table, if it passes its tests.
fn tested(table: PhaseTable) -> Result<PhaseTable, RefusedFile>
    ensures answer { outcome_of_file result ≡ unless (broken_table table ∷ []) (answer table) }
    ensures table { table_handed result ≡ cond (passes table) table phase_table }
{
    if phases::passes(table) {
        Ok(table)
    } else {
        Err(refused(Refusal::PhaseRule))
    }
}

// A refusal, beside the constant table.
fn refused(why: Refusal) -> RefusedFile
    ensures { (result.why ≡ why) × (result.table ≡ phase_table) }
{
    RefusedFile {
        why,
        table: phases::phase_table(),
    }
}

// Phase tables: the constant one, and one that a file writes.
ghost use Rattle.std.specs.Prelude.{◌≡◌};
ghost use Rattle.phases.specs.Table.{phase_table};
ghost use Rattle.phase_file.specs.File.{file_outcome, table_after};
ghost use Rattle.c_api.specs.Told.{number_of, values_of};

use crate::{VALUES, told};
use phases::PHASES;

// The constant table. No input, so no refusal: it returns nothing.
#[unsafe(no_mangle)]
pub extern "C" fn gomurin_phase_table(cosines: &mut [i64; PHASES], sines: &mut [i64; PHASES])
    ensures cosines { cosines.new ≡ phase_table.cosines }
    ensures sines { sines.new ≡ phase_table.sines }
{
    let table = phases::phase_table();
    told::table(table, cosines, sines);
}

// The table that a file writes, and the constant one beside a refusal.
#[unsafe(no_mangle)]
pub extern "C" fn gomurin_read_phase_table(
    file: &[u8],
    cosines: &mut [i64; PHASES],
    sines: &mut [i64; PHASES],
    values: &mut [usize; VALUES],
) -> usize
    ensures number { result ≡ number_of (file_outcome file.now) }
    ensures cosines { cosines.new ≡ (table_after (file_outcome file.now)).cosines }
    ensures sines { sines.new ≡ (table_after (file_outcome file.now)).sines }
    ensures values { values.new ≡ values_of (file_outcome file.now) }
{
    match phase_file::read_phase_table(file) {
        Ok(table) => {
            told::table(table, cosines, sines);
            told::answered(values)
        }
        Err(refused) => {
            told::table(refused.table, cosines, sines);
            told::refused(refused.why, values)
        }
    }
}

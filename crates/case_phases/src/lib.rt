// Phase tables as lines of cases name them: one that a file writes, and the entries of one.
#![tactic(auto)]

mod file;
mod own;

use case_text::fields;
use case_text::texts::TEXT_ROOM;
use lines::Append;
use phases::PhaseTable;
use std::alloc::AllocError;

// Puts the table that the text of a file hands back in force; the one before stays where the text is too long.
pub fn read(out: &mut Vec<u8>, table: &mut PhaseTable, text: &[u8]) -> Result<(), AllocError> {
    let mut file = [0u8; TEXT_ROOM];
    let length = file::expand(fields::after_space(text), &mut file);
    if TEXT_ROOM <= length {
        return write!(out, "?");
    }
    match phase_file::read_phase_table(&file[..length]) {
        Ok(read) => {
            *table = read;
            write!(out, "accepted")?;
        }
        Err(refused) => {
            *table = refused.table;
            lines::refusal(out, refused.why)?;
        }
    }
    if is_constant(table) {
        write!(out, ", constant")
    } else {
        write!(out, ", another")
    }
}

// Whether all numbers are those of the constant table.
fn is_constant(table: &PhaseTable) -> bool {
    let own = phases::phase_table();
    table.cosines == own.cosines && table.sines == own.sines
}

// Prints entry j.
pub fn entry(out: &mut Vec<u8>, table: &PhaseTable, j: usize) -> Result<(), AllocError> {
    match (table.cosines.get(j), table.sines.get(j)) {
        (Some(cosine), Some(sine)) => write!(out, "{cosine} {sine}"),
        _ => write!(out, "?"),
    }
}

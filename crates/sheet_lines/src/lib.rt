// The lines of a sheet read: which rule the first faulty one breaks, and what the first three lines say. Nothing here is a buyer's call: the crate
// sheet_text has that.
#![tactic(auto)]

pub mod head;
pub mod line;

use outcome::Refusal;

// A line that breaks a rule: why, and which line.
#[derive(Clone, Copy)]
pub struct LineFault {
    pub why: Refusal,
    pub line: usize,
}

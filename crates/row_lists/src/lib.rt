// Words in one list, row by row. What is checked of the lists of a sum whatever its contents are; and rows put into their places where they
// stand, with zeros after the last. For the crates above: whoever calls a function here owes its `requires`.
#![tactic(auto)]

pub mod checks;
pub mod exchange;
pub mod places;
pub mod zeros;

// The most rows of a sum.
pub const MAX_ROWS: usize = 4096;

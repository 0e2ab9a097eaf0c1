// The words of rows: each different word once, in rising order, in the list that holds the rows, and for each row the place of its word among
// them. For the crates above: whoever calls a function here owes its `requires`.
#![tactic(auto)]

pub mod fold;
pub mod merging;
pub mod search;

// The calls that lines of cases name and that fold sums and print sheets.
#![tactic(auto)]

pub mod folds;
pub mod sheets;

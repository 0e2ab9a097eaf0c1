// Least words on the tables of a group, without the checks of a call: of one word, and of rows of words. Whoever calls a function here owes its
// `requires`.
#![tactic(auto)]

pub mod by_parts;
pub mod rows;
pub mod word;

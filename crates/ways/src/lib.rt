// Which way a group takes to the least word, its path as it stands or refinement through a table of other numbers, and the least word by it. Whoever calls
// a function here owes its `requires`.
#![tactic(auto)]

pub mod numbers;
pub mod way;

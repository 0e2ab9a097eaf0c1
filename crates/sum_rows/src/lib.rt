// The rows of a sum folded by their words: each word once, in rising order, with the sum of its rows' coefficients and how many they are. The
// list that holds the rows' words is the one that holds the result's. For the crates above: whoever calls a function here owes its `requires`.
#![tactic(auto)]

pub mod adding;
pub mod fold;
pub mod row_sum;

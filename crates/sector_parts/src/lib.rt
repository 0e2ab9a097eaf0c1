// Decisions for rows of words part by part, of groups that are no grids as they stand: each part decides on its own sites, and what they find is put together.
// Whoever calls a function here owes its `requires`.
#![tactic(auto)]

pub mod join;
pub mod part;
pub mod rows;

// Groups that are no grids as they stand, part by part: each part takes the best way on its own sites, and what it finds is put together. Whoever calls a
// function here owes its `requires`.
#![tactic(auto)]

pub mod divided;
pub mod part;
pub mod prepared;
pub mod rows;

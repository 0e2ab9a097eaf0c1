// Groups that act freely, in any numbering of their sites: a table of other numbers makes a grid of them, and refinement reads bits through the table, in the
// order of the sites. Whoever calls a function here owes its `requires`.
#![tactic(auto)]

pub mod axes;
pub mod gather;
pub mod least;
pub mod refine;
pub mod table;

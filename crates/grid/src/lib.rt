// Grids: groups whose generators shift along the axes of a lattice. The least word of an orbit on one, by refinement: a candidate k gives the word that has
// at each site what the word has k further on in the same block, and k leads from there back to the word. The bits are read in the order of words, and at
// each those candidates are struck out that would put a 1 where another puts a 0. Whoever calls a function here owes its `requires`.
#![tactic(auto)]

pub mod axes;
pub mod block;
pub mod candidates;
pub mod one;
pub mod refine;
pub mod settle;
pub mod step;

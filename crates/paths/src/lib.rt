// Which path a group takes, found once a call: a grid by refinement, with the least rotation behind it where there is one generator, generators that
// rotate inside blocks by masks, and all others a byte a site. Whoever calls a function here owes its `requires`.
#![tactic(auto)]

pub mod least;
pub mod moves;
pub mod plan;

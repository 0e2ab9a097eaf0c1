// A sector's decision for one word, by what is known of the indices that fix it: which words modes keep, with their orbit size, and what drops the others. Whoever
// calls a function here owes its `requires`.
#![tactic(auto)]

pub mod leading;
pub mod phase;
pub mod placement;
pub mod stabilizer;

// The word that an index makes of a word, without the walk before it: one rotation a generator where all generators rotate inside blocks, and for
// others the generator's powers, by squares. On tables that hold an accepted group. Nothing here is a buyer's call: the crate orbit has those.
#![tactic(auto)]

pub mod powers;
pub mod word;

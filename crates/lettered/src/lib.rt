// The walk over a word's orbit on codes, one byte a site: the word is unpacked before it, and the least word packed after it. For groups whose
// permutations have no shape that machine words could follow.
#![tactic(auto)]

pub mod order;
pub mod walk;

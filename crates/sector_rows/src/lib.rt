// Decisions for a word and for rows of words, by the way of their group: found once for a call, however many words it has. Whoever calls a function here owes its
// `requires`.
#![tactic(auto)]

pub mod by_parts;
pub mod rows;
pub mod word;

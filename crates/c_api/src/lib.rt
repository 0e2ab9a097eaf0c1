// The calls for C, and for whatever calls C: those of words and of the three levels, phase tables, and the sheet. include/gomurin.h declares each.
//
// A call takes and hands back plain numbers, slices and arrays of fixed length. A group is its four parts, a walk is a group with a word and an index, a
// phase table is its two lists.
// A call returns 0 for an answer, else the number of the rule that the input breaks; what goes with either goes through `&mut`. Beside a refusal it hands
// back zeros, or a group or a walk that every call refuses, or the constant phase table; slices stay as they were, but for 25 and the line of a refused
// sheet, and so does the walk of a refused step.
#![tactic(auto)]

pub mod groups;
pub mod orbits;
pub mod projections;
pub mod sectors;
pub mod sheets;
pub mod sums;
pub mod tables;
mod told;
pub mod words;

// Places for what a rule names; the line of a sheet, and then what its rule names, is the most.
pub const VALUES: usize = 4;

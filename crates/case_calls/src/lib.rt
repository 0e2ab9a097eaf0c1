// The calls on groups and words that lines of cases name. What puts something in force writes it there; what asks prints its answer.
#![tactic(auto)]

pub mod counters;
pub mod groups;
pub mod modes;
pub mod orbits;
pub mod words;

use permutation::Lent;

// What is in force for a call: a group, a word of n sites, and modes.
#[derive(Clone, Copy)]
pub struct InForce<'a> {
    pub group: Lent<'a>,
    pub n: usize,
    pub word: &'a [u8],
    pub modes: &'a [i32],
}

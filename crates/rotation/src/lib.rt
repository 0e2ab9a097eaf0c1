// Groups whose generators rotate sites inside blocks: found, and walked by masks.
#![tactic(auto)]

pub mod least;
pub mod planes;
pub mod reach;
pub mod shape;
pub mod walk;

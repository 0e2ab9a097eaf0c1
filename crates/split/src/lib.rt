// Groups in parts: which generators move common sites, and each part as a group of its own on the sites that it moves. Whoever calls a function here owes its
// `requires`.
#![tactic(auto)]

pub mod divide;
pub mod index;
pub mod letters;
pub mod modes;
pub mod places;
pub mod tables;

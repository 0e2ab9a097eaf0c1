// Texts as bytes: what sheets are read and written with. Nothing here is a buyer's call.
#![tactic(auto)]

pub mod names;
pub mod read;
pub mod write;

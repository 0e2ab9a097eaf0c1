// What a group's elements do: moved words, the walk over an orbit, least words, digits and inverses of indices, on tables that hold an
// accepted group. Nothing here is a buyer's call: the crate group has those.
#![tactic(auto)]

pub mod index;
pub mod letters;
pub mod walk;

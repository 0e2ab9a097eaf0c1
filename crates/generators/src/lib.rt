// A buyer's generators as tables: MAX_SITES places of targets for each of at most MAX_GENERATORS generators, and their orders. Reading a generator list into
// them, the rules 5 to 13, which tables hold a group (14), and the shifts of lattices. Nothing here is a buyer's call: the crate group has
// those.
#![tactic(auto)]

pub mod lattice;
pub mod list;
pub mod tables;

// The rows that a sheet prints, and the line of a refused one. Nothing here is a buyer's call: the crate sheet_text has that.
#![tactic(auto)]

pub mod row;

// Lines of cases as text: the commands that they write, the numbers and lists in them, bytes in hexadecimal, sheets and files written in a line.
#![tactic(auto)]

pub mod commands;
pub mod fields;
pub mod hexadecimal;
pub mod lists;
pub mod rows;
pub mod texts;

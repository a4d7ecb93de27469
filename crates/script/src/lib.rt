// Scripts of the console: a line's words and numbers, and the command that it is.
#![tactic(auto)]

pub mod commands;
pub mod faults;
pub mod fields;
pub mod parsing;

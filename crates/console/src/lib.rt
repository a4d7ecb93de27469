// The console: a memory as a script sets it up, and an answer to each command.
#![tactic(auto)]

pub mod answers;
pub mod calls;
pub mod questions;
pub mod setup;

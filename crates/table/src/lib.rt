// A job's sector table, and what a job sees through it.
#![tactic(auto)]

pub mod entry;
pub mod sectors;
pub mod view;

// What a job is, and what each call on a job means: the specs of this crate are what the engine promises.
#![tactic(auto)]

pub mod job;
pub mod records;
pub mod running;

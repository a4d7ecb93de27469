// The engine: eight jobs over a memory that is lent at each call. So memory and job, and at a run its limit, stay parameters of the call.
#![tactic(auto)]

pub mod calls;
pub mod jobs;
pub mod judging;
pub mod receipt;

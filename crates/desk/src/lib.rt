// A host's desk: an engine together with the receipts that its jobs are owed, so that none is lost.
#![tactic(auto)]

pub mod calls;
pub mod desk;
pub mod held;

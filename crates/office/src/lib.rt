// A pricing office: shipments, charges, and what it says to a shipper's program.
#![tactic(auto)]

pub mod account;
pub mod bill;
pub mod charge;
pub mod question;

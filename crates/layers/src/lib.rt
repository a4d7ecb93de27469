// Layers: memories that stand on another memory, a layer among them.
#![tactic(auto)]

pub mod rom;
pub mod seal;

// What the processor holds: two banks of eight registers with four flags, the mode, P, the interrupt flag and the stack.
#![tactic(auto)]

pub mod bank;
pub mod processor;
pub mod pushing;
pub mod stack;

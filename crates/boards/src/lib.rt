// Boards: memories over buffers that the host lends.
#![tactic(auto)]

pub mod board;
mod fills;
mod shown;
pub mod single;
pub mod twin;

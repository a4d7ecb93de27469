// The block and field instructions over any space: element by element, up to an end or a fault.
// Bank and space stay two parameters: of a struct of both loans each function would have to say that it keeps them the same loans.
#![tactic(auto)]

pub mod fields;
pub mod transfers;

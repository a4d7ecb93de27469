// The pages that a job holds: what an opening tests and clears, and where a load puts its bytes.
// A function is given the table and the memory apart, as the engine has them; what looks at both for every address makes a `Sight` of them.
#![tactic(auto)]

pub mod clearing;
pub mod entries;
pub mod loading;
pub mod looking;
mod sight;

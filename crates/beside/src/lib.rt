// Jobs beside each other, engines beside each other, and piles of layers. Nothing but tests.
#![tactic(auto)]

#[cfg(test)]
mod piles;
#[cfg(test)]
mod pricing;
#[cfg(test)]
mod strangers;

#[cfg(test)]
use refusal::Refusal;

// A refusal's number and place, which are what its tests compare: docs/ states them. Each crate of tests has these lines, since neither stands on the other.
#[cfg(test)]
fn told(refusal: Refusal) -> (u8, u32) {
    (refusal.ground.number(), refusal.place)
}

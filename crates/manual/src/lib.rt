// Programs run through the engine, and calls made of it, with what the processor's manual and the rules say of each. Nothing but tests.
#![tactic(auto)]

#[cfg(test)]
mod bench;
#[cfg(test)]
mod figures;
#[cfg(test)]
mod images;
#[cfg(test)]
mod owing;
#[cfg(test)]
mod refusals;
#[cfg(test)]
mod samples;
#[cfg(test)]
mod stops;

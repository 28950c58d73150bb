//! Tests of what threads share, by its public calls alone: weathers and links.
//!
//! It has no code but tests, and stands on the crates that it tests. Each file is named for what it
//! shows; `sending` has what the tests share.
#![tactic(auto)]

#[cfg(test)]
mod fault_texts;
#[cfg(test)]
mod last_movers;
#[cfg(test)]
mod links;
#[cfg(test)]
mod links_of_threads;
#[cfg(test)]
mod rests;
#[cfg(test)]
mod sending;
#[cfg(test)]
mod weathers;

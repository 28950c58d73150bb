//! Tests of what is said in words of an input and of a run.
//!
//! The words are no part of a contract, so each number that the program prints has a row here: what is said
//! of it, and of which event, key, ballot or wish. The crate has no code but tests.
#![tactic(auto)]

#[cfg(test)]
mod hearing;
#[cfg(test)]
mod journals;
#[cfg(test)]
mod limits;
#[cfg(test)]
mod runs;
#[cfg(test)]
mod scripts;
#[cfg(test)]
mod settings;
#[cfg(test)]
mod stages;

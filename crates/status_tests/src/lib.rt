//! Tests of a service at a glance, by public calls alone.
//!
//! The crate has only tests. Each test makes a directory of its own in the folder for temporary files, and removes
//! it.
#![tactic(auto)]

#[cfg(test)]
mod faults;
#[cfg(test)]
mod glances;
#[cfg(test)]
mod rooms;
#[cfg(test)]
mod showing;

//! Tests of services' directories, by public calls alone.
//!
//! The crate has only tests. Each test makes a directory of its own in the folder for temporary files, and removes it.
#![tactic(auto)]

#[cfg(test)]
mod contents;
#[cfg(test)]
mod opening;
#[cfg(test)]
mod parts;
#[cfg(test)]
mod refusals;
#[cfg(test)]
mod rooms;
#[cfg(test)]
mod secrets;
#[cfg(test)]
mod stopping_files;
#[cfg(test)]
mod stops;

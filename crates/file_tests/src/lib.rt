//! Tests of records on files, by public calls alone.
//!
//! The crate has only tests. Each test makes files of its own in the folder for temporary files, and removes
//! them.
#![tactic(auto)]

#[cfg(test)]
mod files;
#[cfg(test)]
mod homes;
#[cfg(test)]
mod lies;
#[cfg(test)]
mod media;
#[cfg(test)]
mod rooms;
#[cfg(test)]
mod rotations;
#[cfg(test)]
mod slots;
#[cfg(test)]
mod stops;
#[cfg(test)]
mod views;

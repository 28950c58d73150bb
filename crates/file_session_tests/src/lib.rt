//! Tests of a service whose records are on files: a node's record in a box, and the record of a session.
//!
//! The crate has only tests. Each test makes files of its own in the folder for temporary files, and removes
//! them.
#![tactic(auto)]

#[cfg(test)]
mod going_on;
#[cfg(test)]
mod opening;

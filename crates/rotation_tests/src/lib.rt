//! Tests of records in three slots of a plate that a crash may tear, by public calls alone.
//!
//! It has no code but tests, and stands on the crates that it tests. A test that fails names the row;
//! a row without an answer can't be read, or memory was refused.
#![tactic(auto)]

#[cfg(test)]
mod opening;
#[cfg(test)]
mod rings;
#[cfg(test)]
mod torn;

//! Tests of recorders by their public calls alone: an actor that logs in a book of its own, a node that takes
//! another problem, and two threads that log in one book.
//!
//! It has no code but tests, and stands on the crates that it tests. Each file is named for what it
//! shows.
#![tactic(auto)]

#[cfg(test)]
mod alone;
#[cfg(test)]
mod switches;
#[cfg(test)]
mod threads;
#[cfg(test)]
mod worlds;

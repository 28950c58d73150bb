//! Tests of the commands of a client's program, by their public calls alone.
//!
//! The line of each command is read, and other lines are not.
#![tactic(auto)]

#[cfg(test)]
mod lines;

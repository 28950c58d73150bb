//! Weighted votes: sets of nodes, ballots, and lists of ballots.
//!
//! A ballot gives each of its nodes a number of votes, and says how many votes a reader and a
//! writer collect before they use a resource (Gifford 1979). A reader or a writer keeps the nodes
//! that granted it their votes as a `NodeSet`, and asks the `Ballot` whether these are `enough`.
//!
//! The crate promises that each `Ballot` crosses: a writer's votes are so many that each reader
//! and each other writer had to get some of them. `Ballot::of` refuses all other numbers, each by
//! its `BallotFault`. The votes of a set are a sum over a set, so no node counts twice. Where a
//! service has several ballots they make a `BallotList`, in which each two cross as well; so a writer
//! under one of them meets readers and writers under each. `BallotList::of` refuses all others.
//!
//! All types are `Copy` and take no memory. What a ballot means is defined in `lock_model`; this
//! crate's `specs/` has node sets as lists (`Sets`), which numbers make a ballot (`Ballots`) and
//! what is wrong with the others (`Faults`), which ballots make a list (`BallotLists`) and what is
//! wrong with the others (`ListFaults`), and `laws` proves that these agree. The crate stands on
//! `lock_messages`, `lock_model` and `thiserror`.
#![tactic(auto)]

mod ballots;
mod crossing;
mod faults;
pub mod laws;
mod lists;
mod sets;

pub use ballots::Ballot;
pub use faults::BallotFault;
pub use lists::{BallotList, MAX_BALLOTS};
pub use sets::NodeSet;

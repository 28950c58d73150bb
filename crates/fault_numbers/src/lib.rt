//! The words of every number by which programs report a fault: what it means, why it comes, and what to do.
//!
//! `text_of` returns the words of a number, or nothing if no fault has it. `push_text` adds them to a text, as
//! `rwvote explain` prints them. This crate is the one place where these words stand: the lines of `--explain`,
//! pictures and `docs/REFERENCE.md` take them from here.
//!
//! The crate promises which words belong to which number: `Numbers` in `specs/` has the table, and the contract of
//! `text_of` says that it returns just that. It stands on no other crate.
#![tactic(auto)]

mod searching;
mod tables;

pub use searching::{FaultText, meaning_of, push_text, text_of};

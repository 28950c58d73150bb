//! Merging the journals that actors write alone.
//!
//! `LineMerges` in `specs/` says what a line tells, and when journals have a merge. The laws of the module `laws` say
//! that it can be found line by line: whichever line is taken first, a merge is found if there is one.
//!
//! It stands on `merge_model` and `own_journals`.
#![tactic(auto)]

pub mod laws;

//! How a test ends before its end, and what tests name: a small library for the test crates, and for them alone.
//!
//! A test answers an `Outcome`, whose `Failure` says that memory was refused, or in which row of the
//! test's table something is wrong or can't be told; so a test goes on by `?` like any other code. The
//! crate promises that a check passes just what holds, and names its row. It asks for no memory.
//! `node_id` and `client_id` are the identifiers of numbers that stand in a test, which can't fail.
//!
//! It stands on `std` and, for what a step's fault is to a test, on `world_model`; and on `lock_messages` for
//! identifiers.
#![tactic(auto)]

mod checks;
mod failures;
mod ids;

pub use checks::{check, check_answer, check_answers, check_row};
pub use failures::{Failure, Outcome};
pub use ids::{client_id, node_id};

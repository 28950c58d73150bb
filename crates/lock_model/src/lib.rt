//! What the lock service means: ballots, stations, settling, decisions and what clients hear.
//!
//! The definitions stand in `specs/`, at two levels. As sets, maps and relations: `Ballots`,
//! `Stations`, `Decisions`, `Hearing`. Exactly, with entries in order and replies in order:
//! `ExactStations`, `ExactDecisions`. The module `laws` proves what follows from them, and that the
//! exact level is a case of the relations.
//!
//! The crate has the plain data that these speak of (`Problem`, `Entry`, `Live`, `Status`, `Heard`)
//! and `decide`, a slow and obvious function whose contract is the exact decision; `reply_to_known`
//! and `new_entry` are parts of it that every decision needs. It promises that these answer exactly
//! this, and the laws. It stands on `lock_messages`.
#![tactic(auto)]

mod decision;
mod entries;
mod hearing;
pub mod laws;
mod problems;
mod settling;

pub use decision::{Decision, decide, new_entry, reply_to_known};
pub use entries::{Entry, Live, Status};
pub use hearing::Heard;
pub use problems::Problem;

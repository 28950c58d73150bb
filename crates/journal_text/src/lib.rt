//! The text of a journal: the events of a history, each in a line of its own, written to a writer.
//!
//! The crate promises that what is written is the one text of the history, or after a fault a beginning
//! of it that isn't all. It gathers lines before it writes, and asks for memory for one line at a time. `Journals` in
//! `specs/` has the words. That an audit finds such a text sound is said by `journal_laws`.
//!
//! It stands on `event_lines` for the lines, `line_streams`, `lock_messages`, `vote_weights` for how many
//! ballots there may be, `world_model` and `thiserror`.
#![tactic(auto)]

mod faults;
mod naming;
mod writing;

pub use faults::JournalFault;
pub use writing::write_history;

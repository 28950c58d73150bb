//! Books and berths: one history of what all actors did, and a token by which each actor logs.
//!
//! A `Book` takes events in a world and keeps them, with their effects, in order. A `Berth` is one
//! actor's token; no event is logged but by the berth of its actor. The crate promises that a book's
//! history is always a run from the world that it was opened with, which leaves the book's world; that
//! the history has of a berth's actor just what was logged by that berth, whatever others log between;
//! and so that an actor's part of the world, and what is refused to it, is told by its own events. The
//! module `laws` says what that means for a client inside: it is inside until its own Leave or Fall. It
//! stands on `world_machine`, `berth_seats`, `event_recorders` for the faults of logs, `journal_text` for the
//! journal, `line_streams`, `world_model`, `lock_model`, `lock_messages` and `vote_weights`.
#![tactic(auto)]

mod books;
pub mod laws;
mod meeting;
mod owners;

pub use books::{Berth, Book, MAX_EVENTS};
pub use event_recorders::LogFault as BookFault;
pub use journal_text::JournalFault;

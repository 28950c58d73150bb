//! Recorders that log in a book: through one lock that all threads share, or alone.
//!
//! A `Named` is a book under a lock, which knows which book it is. A `BookRecorder` has one actor's
//! berth of it and logs through the lock, which it takes for each event and keeps for none longer. A
//! `OwnBookRecorder` has a book and a berth of its own and no lock, for tests. The crate promises of both
//! what a `Recorder` is, and of what is logged through the lock how the berth goes on: from all that it
//! had seen, by what others logged, and then by its own event; and all of it is a run. It stands on
//! `history_book`, `event_recorders`, `stable_record`, `berth_seats`, `world_machine`, `world_model` and
//! `lock_messages`; its definitions and proofs also on `lock_model`, `vote_weights`, `voter_core` and
//! `world_actors`.
#![tactic(auto)]

mod alone;
mod logs;
mod named;
mod shared;

pub use alone::{OwnBookRecorder, open_alone};
pub use logs::Logs;
pub use named::{BookName, Named};
pub use shared::BookRecorder;

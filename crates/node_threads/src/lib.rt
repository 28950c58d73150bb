//! One thread for each actor, over one book behind a lock.
//!
//! `run_all` opens a book with the world that it is given, starts a thread for each node and each client,
//! which log in that book, and answers the book once all of them have ended. `with_sessions` does so too, and
//! has the caller's `Work` done in each client's thread, with its session (`lock_session`). Both promise
//! that the book was opened with that world, so its history is a run from it, that they tell as many entries as
//! the history has, and that those that they tell as ended by a fault stand in order, nodes first, none twice, each
//! with a fault that the actor may have. Of a client that isn't told `run_all` promises that it did as it was wished, and `with_sessions`
//! that it rests, with just its attempt in the record that comes back; and the record of each comes back with
//! nothing in it but what the client has kept or tries to keep. The crate holds no lock of its own round the
//! threads. It promises nothing of what they do or send beyond what `node_loop`, `client_loop` and
//! `lock_session` promise, and not that they end.
//!
//! It stands on `node_loop` and `client_loop` for what a thread runs, `lock_session` for sessions,
//! `book_recorders` for the lock, `lossy_link` for what is sent, `history_book`, `berth_seats`,
//! `event_recorders`, `event_lines` for wishes, `stable_record`,
//! `admission_policy`, `vote_weights`, `world_machine`, `world_actors`, `world_opening`, `world_model`,
//! `lock_messages` and `lock_model`.
#![tactic(auto)]

mod berths;
mod ends;
pub mod laws;
mod opened;
mod running;
mod runs;
mod services;
mod serving;
mod session_ends;
mod session_lists;
mod session_tasks;
mod tasks;
mod threads;
mod works;

pub use running::{RunEnd, run_all};
pub use services::{ServiceEnd, with_sessions};
pub use works::Work;

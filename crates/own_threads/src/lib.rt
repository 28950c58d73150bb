//! A service in threads of one process, whose actors log for themselves.
//!
//! `with_own_sessions` starts a thread for each node and each client. Each logs in a recorder of its own: an `OwnRecorder`
//! writes a journal, and a `QuietRecorder` none. The threads share nothing but the inboxes of their links.
//!
//! The caller's `OwnWork` is done in each client's thread, with the client's session. When all sessions are gone the nodes
//! end, and all threads are joined. There is no shared log, so a service goes on for as long as its work does.
//! `run_own_in_memory` brings records, and writes no journals.
//!
//! The crate promises of each thread:
//!
//! - Its log is an own run of its actor, from the part that the actor's record told.
//! - Its recorder began as it was handed in. So `OwnRecorder::tell` shows what its journal holds.
//! - It ended without a fault, or by one that its actor may have.
//! - A restart finds in a client's record nothing but what the client has kept or tries to keep. A client without a fault
//!   rests, with just its attempt there.
//!
//! It promises nothing of what the links bring, and not that a thread ends. So it does not promise that the logs of all
//! actors fit together, which the journals show if they are merged.
//!
//! It uses `own_recorders` for logs, `node_loop` for nodes, `lock_session` for clients, `lossy_link` for links,
//! `event_lists` for logs that no memory holds, and the crates of their types.
#![tactic(auto)]

mod beginnings;
mod ends;
mod lives;
mod memories;
mod quiet;
mod recorders;
mod services;
mod starts;
mod tasks;
mod threads;
mod works;

pub use ends::{ClientEnd, NodeEnd, OwnServiceEnd};
pub use memories::{MemoryServiceEnd, run_own_in_memory};
pub use quiet::QuietRecorder;
pub use recorders::ActorRecorder;
pub use services::with_own_sessions;
pub use starts::{ClientStart, NodeStart};
pub use works::OwnWork;

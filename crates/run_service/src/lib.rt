//! The run of the service, all parts together: from the bytes of its settings to what is printed of it.
//!
//! `serve_run` reads settings as every command does, opens the world in which all are down and nothing is
//! kept, has a thread for each node and each client run in it, and tells what came of it: how often a
//! resource was entered, how many events there were, and which actor ended by a fault; or the journal,
//! behind the settings, so that it can be audited as it stands.
//!
//! What threads come to is no function of the settings. The crate promises that what is written is, byte
//! for byte, a function of the run's end (`specs/Ends`), that the end's history is a run from the world of
//! the settings, so no writer shares a resource, and that a journal which was written whole is found sound
//! by `operator_cli::serve`. Which actor ends by which fault is not said. The policies and the records are
//! the caller's.
//!
//! `run_sessions` opens the same world, and has the caller's own work done in it, by a session for each client, in
//! place of wishes; it promises what `node_threads::with_sessions` does. `run_in_memory` brings policies and records
//! itself, and `audit_book` audits what is in the book in the end.
//!
//! It stands on `world_settings` for settings, `operator_cli` for faults, `node_threads` for the run, `explanations`
//! for what is said of it in words, `journal_text`, `journal_audit` and `journal_laws` for the journal, `line_streams`,
//! `event_recorders`, `history_book`, `event_lines`, `lock_session`, `lossy_link`, `stable_record`,
//! `admission_policy`, `world_machine`, `world_model`, `lock_messages` and `lock_model`.
#![tactic(auto)]

mod audits;
mod ends;
mod records;
mod serving;
mod sessions;

pub use audits::audit_book;
pub use records::{Records, Supplies, empty_client_record, empty_node_record};
pub use serving::serve_run;
pub use sessions::{empty_client_records, plain_policies, run_in_memory, run_sessions};

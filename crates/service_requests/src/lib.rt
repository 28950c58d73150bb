//! What `rwvote` does for the commands of a service: `init`, `node`, `client`, `reap`, `status` and `switch`.
//!
//! `run_service_request` makes a service, shows one, or runs one of its programs, and returns how the program ends.
//! `refuse_words` says of wrong words what is wrong.
//!
//! The crate promises which status comes of which fault, and what is written on both writers as far as the crates below
//! promise it. No contract says which bytes a file has. `Requests` in `specs/` says what is promised.
//!
//! It uses `service_words` for what is asked for, `service_folders` for directories, `service_status` and
//! `service_programs` for what is run, `operator_cli` for faults, and `program_ends` for the status.
#![tactic(auto)]

mod ends;
mod making;
mod running;
mod serving;
mod showing;

pub use ends::refuse_words;
pub use serving::run_service_request;

//! Records on files, for the programs of actors.
//!
//! A `FileRecord` is a record in three slots of a plate over a file. `create_record` makes one under a
//! name that is not taken, and `open_record` opens one. While it is in use, no other process can open it
//! as a record.
//!
//! The crate promises that a new record holds the bytes that it was made with, and that an opened one
//! holds what was found, whatever a crash leaves from then on. Its faults are those that each call names.
//! It rests on the premise of `file_plate`.
//!
//! The crate uses `file_plate`, `rotating_record`, `slot_record` and `stable_record`.
#![tactic(auto)]

mod drafts;
mod files;

pub use files::{FileRecord, create_record, open_record};

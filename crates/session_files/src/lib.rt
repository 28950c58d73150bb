//! A record on a file, as a record that a client's session owns.
//!
//! `SessionFile` passes each call on to the `FileRecord` in it. The crate promises what `event_recorders::OwnRecord` asks
//! for of a record. It uses `file_records`, `file_plate` and `slot_record` for records on files.
#![tactic(auto)]

mod records;

pub use records::SessionFile;

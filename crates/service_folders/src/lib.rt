//! A service's directory: how it is made, and how it is opened.
//!
//! A service is a directory with these files:
//!
//! - `settings.toml`: the settings, as a TOML document.
//! - `secret`: the key under which lines between programs are tagged.
//! - `n1.record`, `c1.record`: the record of each actor.
//! - `n1.inbox`, `c1.inbox`: the inbox of each actor.
//! - `n1.journal`, `c1.journal`: the journal of each actor. The actor's program makes it.
//!
//! `make_service` makes a directory with new records and empty inboxes. It makes `settings.toml` last. So if it is
//! interrupted, what it leaves is no service's directory. `open_service` opens a directory. Neither makes a record
//! again that is missing: an actor without its record could break exclusion. A `Part` names the actors of one machine.
//!
//! The crate promises what an opened service says: its ballots, problem and clients are those of the settings' text, and
//! its secret is that of the key. It promises which actors a `Part` has, the paths of files, and the bytes of a new
//! record. Only tests show what is on the disk.
//!
//! It uses `world_settings` for settings, `event_lines` for the names of actors, `file_records` and `file_plate` for
//! records, `line_link` for inboxes, `frame_lines` for secrets, `stable_record`, `vote_weights`, `lock_model`,
//! `lock_messages`, `hex` and `thiserror`.
#![tactic(auto)]

mod contents;
mod cuts;
mod faults;
mod keys;
mod making;
mod parts;
mod paths;
mod records;
mod services;

pub use faults::ServiceFault;
pub use making::make_service;
pub use parts::Part;
pub use paths::{batch_path, journal_path, record_path};
pub use services::{Service, open_service};

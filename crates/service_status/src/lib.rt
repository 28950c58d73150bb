//! A service at a glance: its nodes, its clients, and who has or waits for which vote.
//!
//! `show_status` shows an opened service as lines, for `rwvote status`. `look_at` looks at the records in a folder and
//! returns a `Sight`: of each node if a process runs it and what its record says, of each client if a process runs it
//! and its last attempt. `see_node` looks at one node. `text_of` writes the lines of a sight. `claims_of` lists what the records of the nodes say of
//! live tickets.
//!
//! It disturbs nobody. It writes nothing, and takes the shared lock of a record only for a moment, to find out whether a
//! process holds the record. A program that starts in that moment has to try its lock again.
//!
//! The crate promises what the lines say of a sight: a line for each node, a line for each client that is up or
//! whose record can't be read, and each claim of the records in order. It promises that a record in a sight is the one
//! that opening finds on some bytes that were read. It can't promise which bytes a file has, nor who holds a lock: only
//! tests show that.
//!
//! It uses `service_folders` for the paths of records, `record_view` for what their files hold, `stable_record`,
//! `rotating_record`, `file_plate`, `program_ends`, `operator_cli`, `lock_model` and `lock_messages`.
#![tactic(auto)]

mod claims;
mod looking;
mod showing;
mod sights;
mod texts;

pub use claims::{Claim, Standing, claims_of};
pub use looking::{look_at, see_node};
pub use showing::show_status;
pub use sights::{ClientState, NodeState, SeenClient, SeenNode, Sight};
pub use texts::{problem_word, text_of};

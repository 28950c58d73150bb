//! The records from which the world of a lock service is opened.
//!
//! `judge` reads the records that nodes and clients have kept, and answers what a world can be opened
//! from, or why none can: the first record that can't be read (622), then an entry above its client's
//! attempt (621), or want of memory (613). A node's problem is its record's. The crate promises that it answers
//! just what the records spell, that a fault comes only where its cause stands in the records, and that
//! what it answers fits: under a ballot that crosses it opens a sound world of `world_model`, in which a
//! writer is alone. It stands on `lock_messages`, `lock_model`, `stable_record`, `world_model` and
//! `thiserror`.
#![tactic(auto)]

mod faults;
mod judging;

pub use faults::OpeningFault;
pub use judging::{Opening, client_at, judge, node_at};

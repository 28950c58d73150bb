//! Node and client records, and what a restart finds.
//!
//! A node keeps its problem and its entries, a client the number of its last attempt. `node_bytes`
//! and `client_bytes` write the one spelling of a record; `read_node` and `read_client` answer the
//! record exactly where the whole input is its spelling, else the first fault from the front
//! (`RecordFault`). What `read_node` answers is lawful and caused. `laws::one_spelling` says that no
//! spelling begins another. `client_bytes`, `read_client`, `lawful` and `caused` take no memory.
//!
//! `ResourceIndex` has the tickets of a record by resource: who holds each, and who waits for it. It
//! can be kept beside entries that change: it is told of each ticket that ends, is softened, becomes a
//! holder or comes new, and asks for memory before any of these. `IndexedRecord` is a record with its
//! index.
//!
//! `StableRecord` says what it means to keep a record: which byte strings, one or two, a restart now
//! may find, whether the record is stuck, and how often its device has failed. Code above is generic
//! in it. `MemoryRecord` never fails but for memory; `FaultyRecord` fails when a test wants it.
//!
//! `Entries` is a list, with a note of where each client's entry was put. A copy of it costs as much as
//! its memory is long.
//!
//! The crate stands on `lock_messages`, `lock_model` and `thiserror`.
#![tactic(auto)]

mod client_records;
mod entries;
mod faults;
mod faulty_records;
mod formats;
mod indexed_records;
mod judging;
pub mod laws;
mod leaves;
mod lines;
mod memory_records;
mod node_records;
mod places;
mod questions;
mod reading;
mod resource_index;
mod stable;
mod tickets;
mod writing;

pub use client_records::{client_bytes, read_client};
pub use entries::Entries;
pub use faults::RecordFault;
pub use faulty_records::FaultyRecord;
pub use formats::MAX_RECORD_LEN;
pub use indexed_records::IndexedRecord;
pub use leaves::Leaves;
pub use lines::Line;
pub use lock_model::{Entry, Live, Status};
pub use memory_records::MemoryRecord;
pub use node_records::NodeRecord;
pub use reading::read_node;
pub use resource_index::ResourceIndex;
pub use stable::StableRecord;
pub use writing::node_bytes;

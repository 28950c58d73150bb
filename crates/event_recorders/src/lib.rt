//! By what an actor's thread logs its events, and what it calls while it keeps a record or is inside.
//!
//! A `Recorder` is one actor's way to a log: contracts see of it an `OwnLog`, the actor's part of the
//! world as the log was opened and the actor's own events since then. It takes an event only where this
//! list allows it and where the actor's record finds what the actor has kept by then, so a thread that
//! meets these conditions logs nothing that couldn't be. An `OwnRecord` is an actor's record, which hands itself to the
//! recorder: one in memory, one that is lent (`LentRecord`), or one in a box (`BoxedRecord`). A `SharedRecorder` is one over a log that all actors
//! share, and can be asked who is inside a resource, and whether its client and another one are inside the same;
//! if they are, both are readers. A `Gate` is called before a record is kept and while a client is inside. A
//! `LogFault` says why a log refuses an event, a `RunFault` by which fault a thread ended.
//!
//! Which log it is, a book of all actors or a journal of the actor's own, nothing here knows. The crate promises
//! the laws of the module `laws`, on what an own log tells. It stands on `world_model`, `stable_record`,
//! `entry_guard`, `client_core`, `lock_messages`, `lock_model` and `thiserror`; its definitions and proofs also on
//! `vote_weights`.
#![tactic(auto)]

mod boxed_records;
mod faults;
mod gates;
pub mod laws;
mod lent_records;
mod log_faults;
mod own_records;
mod recorders;
mod shared_recorders;

pub use boxed_records::BoxedRecord;
pub use faults::RunFault;
pub use gates::Gate;
pub use lent_records::LentRecord;
pub use log_faults::LogFault;
pub use own_records::OwnRecord;
pub use recorders::Recorder;
pub use shared_recorders::SharedRecorder;

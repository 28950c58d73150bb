//! The recorder of an actor that has a process of its own: one line for each event, in a journal of the actor's own.
//!
//! An `OwnRecorder` steps its node or client, writes the event's line, and only then returns the effect. So the line is
//! written before anything that others can see. There is no shared log, no lock and no list of events in memory.
//! Contracts see the log, and no code can. It is a `Recorder`, so the loops of nodes and clients run over it as they
//! are.
//!
//! The crate promises:
//!
//! - Each event that is logged is a turn of the actor's own part of the world. So the log is an own run.
//! - The journal's writer holds what it held before, and then the lines of the log, each whole.
//! - The first line is a `life` line, with the record that the actor has kept.
//! - The lines tell the log, in the words of the law of merging.
//! - After a write has failed the recorder takes nothing more (812, with which a loop ends by 915).
//!
//! A `BatchJournal` may hold lines back until the actor keeps its record. Contracts count them as written.
//!
//! `OwnJournals` in `specs/` says which line an event has. The crate uses `event_recorders` for the trait,
//! `world_actors` for nodes and clients, `own_journals` and `event_lines` for lines, `line_streams` for writing,
//! `event_lists` for the log that no memory holds, `merge_model` for own runs, and `journal_merge` for what lines tell.
#![tactic(auto)]

mod actors;
mod batch_journals;
mod clients;
mod lines;
mod messages;
mod nodes;
mod recorders;

pub use actors::OwnActor;
pub use batch_journals::BatchJournal;
pub use clients::OwnClient;
pub use nodes::OwnNode;
pub use recorders::OwnRecorder;

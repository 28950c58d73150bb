//! What the operator's program does: from the bytes that come in to the bytes that go out.
//!
//! An input begins with settings, as `world_settings` reads them. Of a script each line behind them is an event of a
//! world of voting nodes and clients, or a query: who is inside a resource, and who waits for a node's vote or holds it.
//! Every actor is up at first. `serve` takes the events one after another, prints what each did or why it was refused,
//! and answers the status of the program. Of a journal the lines are events from a world in which all actors are down,
//! and `serve` prints whether they are a run. Asked for the ballots, it prints those of the settings alone.
//!
//! The crate promises that what `serve` writes for a command is, byte for byte, a stated function of the
//! bytes that it reads, and so is the status; after a fault a beginning of that output was written. The
//! function stands in `specs/`: `Lines` (what a line says, as `event_lines` reads it), `Openings` (the world at the
//! first line of a script), `Texts` (how effects and answers are written) and `Outputs`, which puts them together over
//! the exact world of `world_model` (`output_of`). Want of memory alone may put `settings fault 925` in its
//! place. The input is streamed: beside the world, the settings and one line are all that is kept of
//! it. The policies by which nodes decide are the caller's.
//!
//! It stands on `world_settings`, `line_streams`, `event_lines`, `journal_audit`, `lossy_link` for the weather's faults,
//! `lock_messages`, `lock_model`, `vote_weights`, `world_model`, `world_machine` and `thiserror`.
#![tactic(auto)]

mod answers;
mod faults;
mod lines;
mod looking;
mod orders;
mod raising;
mod script;
mod serving;
mod texts;

pub use event_lines::LineFault;
pub use faults::ServeFault;
pub use journal_audit::{AuditFault, Unwatched, Watcher};
pub use lines::read_line;
pub use looking::Onlooker;
pub use orders::Order;
pub use serving::{refuse_start, serve, serve_watched};

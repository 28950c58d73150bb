//! The audit of a journal: whether its lines are events that are a run from a given world.
//!
//! `audit` reads a journal line by line, takes each event in the world that it is given, and ends at the
//! first line that is no event or that the world refuses. It writes one line: `sound N`, or `unsound L`
//! with the number of the fault or of the refusal. So whoever distrusts the one who wrote the journal
//! can ask whether the lock service could have done what it says.
//!
//! The crate promises that the verdict is `Sound(n)` exactly where the text is n lines, each the spelling
//! of an event, that are a run from the world; and `Unsound` of a line, with its cause, exactly where
//! the lines before it are such a run and it is none that could follow. This holds for every reader that
//! tells its bytes, however it cuts them. `Verdicts` in `specs/` has the words. It keeps the world and
//! one line, never the journal, and says its verdict without asking for memory.
//!
//! Whoever takes a journal's lines on its own way has the pieces: `read_piece` reads a line as an audit
//! does, `refused` says what is found where the world refuses it, `end_lines` where there may be no more,
//! and `tell_verdict` writes the verdict's line. `Judging` in `specs/` has their words. Whoever wants to know what
//! each line came to is a `Watcher`.
//!
//! It stands on `event_lines` for lines, `line_streams`, `world_machine`, `world_model`, `itoa`,
//! `arrayvec` and `thiserror`.
#![tactic(auto)]

mod auditing;
mod faults;
mod judging;
pub mod laws;
mod telling;
mod verdicts;
mod watching;

pub use auditing::{audit, audit_lines, audit_watched};
pub use faults::AuditFault;
pub use judging::{end_lines, read_piece, refused};
pub use telling::tell_verdict;
pub use verdicts::{Cause, MAX_LINES, Verdict};
pub use watching::{Unwatched, Watcher};

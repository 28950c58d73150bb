//! The marks of a picture of a run: which ones are drawn, as a function of the run's history.
//!
//! A history is told step by step: the line of a journal, its event and effect, the messages that were
//! said, and what lasts of the event's actor from then on (it is down, it is inside, it holds votes). A
//! `Drawer` takes one step after another and hands out marks as plain values: what, whose, at which line,
//! from where to where. A picture may be of a part, some lines or one resource (`Part`); places say so.
//!
//! The crate promises that the marks are exactly those of `specs/Pictures.antt`: an event's own mark, an
//! arrow for each message that is taken or heard, from where it was said, a bar for each stretch of lines
//! over which something lasts, and in the end a mark for what was never taken. It keeps where each message
//! was said, and what lasts now; nothing else grows with the history. It knows no text and no SVG.
//!
//! It stands on `lock_messages`, `lock_model`, `world_model`, `event_lines` for the faults of lines, and
//! `thiserror`.
#![tactic(auto)]

mod asking;
mod drawing;
mod faults;
mod lasting;
pub mod laws;
mod marks;
mod picking;
mod saying;

pub use drawing::{Drawer, MAX_ROWS};
pub use faults::DrawFault;
pub use marks::{Lasting, Mark, Part, Place, Sign, Step};

//! The lines of a journal that one actor writes alone.
//!
//! Such a journal has an event in each line, as any journal, but two things differ. A line `life n1 HEX` opens each
//! life of the actor, with the bytes that its process found in the record. And `take n1 HEX` and `hear c1 HEX` have
//! the frame of the message in place of a number, since no actor knows the numbers of messages.
//!
//! `read_own_line` returns the line that the bytes spell, exactly if there is one. It stands on `event_lines` for
//! events, `lock_messages`, `world_model`, `hex`, `bytes` and `thiserror`.
#![tactic(auto)]

mod faults;
mod lines;
mod words;

pub use faults::OwnLineFault;
pub use lines::{OwnLine, read_own_line};

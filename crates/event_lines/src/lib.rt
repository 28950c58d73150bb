//! The lines of scripts and journals: which line is which event or query, and what is wrong with any
//! other.
//!
//! A line is a command's word and its arguments, with a space between any two. `Lines` in `specs/`
//! has the one table of the arguments of each command; how lines are read, how they are written and
//! what is wrong with them are said of this table. The crate promises that `read_line` answers just
//! that for every line, and `write_line` just the text of every event and query; the law
//! `lines_are_spelled_once` says that the two are each other's inverse, so that each event and each
//! query whose numbers are in range has one spelling, which is read as it. `read_event` and `write_event` are the same for the
//! lines of a journal, which are events alone (`Events`); `read_wish` and `read_wish_among` read what a
//! client is to do (`Wishes`). The place of a ballot is the one argument that may be left out: at place 1 it
//! always is.
//!
//! It stands on `lock_messages`, on `lock_model` for problems, on `vote_weights` for the places of ballots, on
//! `world_model` for events, and on `thiserror`.
#![tactic(auto)]

mod commands;
mod events;
mod faults;
pub mod laws;
mod lines;
mod wishes;
mod words;

pub use commands::Command;
pub use events::{read_event, write_event};
pub use faults::LineFault;
pub use lines::{Line, Query, read_line, write_line};
pub use wishes::{MAX_WISHES, Wish, read_wish, read_wish_among};
pub use words::{MAX_LINE_LEN, actor_of};

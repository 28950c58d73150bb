//! An input that is read line by line, and an output that is gathered before it is written.
//!
//! `LineReader` reads in large blocks and gives one line after another, each up to a limit;
//! `ReadAhead` does so for a reader that is passed to it, and need not be given away.
//! `Gathered` keeps texts until there are many, or until it is asked to let them out. A program that
//! lets them out wherever `LineReader::has_line` says that no whole line is held serves a person at
//! a terminal, who waits for each answer, and a pipe of a million lines alike.
//!
//! The crate promises that the lines that are given are, in order, what stands between the line
//! feeds of the bytes that the reader has left, and that what is written and what is still gathered
//! are, in order, the texts that were put. It allocates for a line alone, and there too only where
//! the line is longer than any before it. `specs/Streams` has the words.
//!
//! It stands on `std` and `thiserror`.
#![tactic(auto)]

mod faults;
mod holding;
pub mod laws;
mod reading;
mod writing;

pub use faults::StreamFault;
pub use holding::{MAX_AHEAD, ReadAhead};
pub use reading::{End, LineReader, MAX_READS};
pub use writing::{Gathered, MAX_GATHERED, write_text};

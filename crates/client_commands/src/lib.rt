//! The commands that a client's program reads, one a line.
//!
//! `read config`, `write config b2 within 2000` and `try read config` ask for a lock. `soften`, `leave` and `status` are
//! the other commands. Each command has one line, with one space between any two words.
//!
//! The crate promises that a command is read only from its one line. Tests show that the line of each command is read.
//!
//! It uses `lock_messages` for modes and names.
#![tactic(auto)]

mod commands;
mod reading;

pub use commands::{Command, Entry, Waiting};
pub use reading::{MAX_COMMAND_LEN, read_command};

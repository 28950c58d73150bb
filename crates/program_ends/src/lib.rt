//! How a program of the service ends, whatever it serves: its status, and what it says on the second writer.
//!
//! `show`, `say` and `tell_fault` show a text, say one and say a fault, and return how the program ends: `Ended`. `collected`
//! takes the words that a program is given, and `tell_unread` ends one whose words can't be taken. Where `clap`
//! finds nothing to serve in them, `unserved_by` says why not, and `end_unserved` ends the program by it.
//!
//! The crate promises the status and what is written on both writers; `Endings` in `specs/` says so, and
//! `Wordings` what is to be said of words. It asks for no memory to tell a fault.
//!
//! It stands on `operator_cli` for faults, `line_streams` and `clap`.
#![tactic(auto)]

mod ending;
mod wording;

pub use ending::{Ended, end_unserved, end_without_memory, say, show, tell_fault, tell_unread};
pub use wording::{Sort, Unserved, collected, unserved_by};

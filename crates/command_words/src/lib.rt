//! The words that the program takes, their help, and what is read of them.
//!
//! `read_words` reads words by `clap`. It returns what they ask for: to serve a command, with or without `--explain`
//! and `--journal`, to explain a number, to merge journals, to print what a record holds, or a command of a service
//! (`service_words`). Else it returns what is to be said: help, the version, or what is wrong.
//! It promises that just this is returned, by what `clap` finds in the words.
//!
//! It uses `program_ends` for what is said of words, `world_settings` for the commands, `service_words` for those of
//! services, `clap_arguments` and `clap`.
#![tactic(auto)]

mod help;
mod reading;

pub use reading::{Asked, Merging, Request, read_words};

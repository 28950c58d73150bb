//! The words of the commands by which services run as programs: `init`, `node`, `client`, `reap`, `status` and `switch`.
//!
//! `with_services` declares these commands to `clap`, with their help. `service_of` reads what was found of one of
//! them: a `ServiceRequest`, or a `Misuse` if the words are wrong in a way that `clap` does not see.
//!
//! The crate promises which words each command takes, and that just what was found is returned. It refuses exactly the
//! words that are wrong: `Readings` in `specs/` says which. `Misuse::text` is what a program says of them.
//!
//! It uses `clap_arguments` and `clap`, `lock_messages` for numbers of actors, and `lock_model` for problems.
#![tactic(auto)]

mod commands;
mod help;
mod misuses;
mod numbers;
mod reading;
mod requests;

pub use commands::with_services;
pub use misuses::Misuse;
pub use reading::{is_service_name, service_of};
pub use requests::{
    ClientWords, InitWords, Journaling, NodeWords, ReapWords, ServiceRequest, SwitchWords,
};

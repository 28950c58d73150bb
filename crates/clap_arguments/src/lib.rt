//! Commands and arguments that a program declares to `clap`, and what is found of them in words.
//!
//! `command_below` declares a command, and `with_argument` gives it an argument: a `flag`, an option with a value
//! (`option_argument`), the one word of a command (`word_argument`), or all its words (`words_argument`). What
//! `clap` found of them is read by `has_flag`, `option_at`, `word_at` and `words_at`.
//!
//! The crate promises which rule each argument has for `clap`, and that just what was found is returned. `Arguments`
//! in `specs/` has these rules. It stands on `clap` alone.
#![tactic(auto)]

mod declaring;
mod finding;

pub use declaring::{
    below, command_below, flag, option_argument, with_argument, word_argument, words_argument,
};
pub use finding::{has_flag, option_at, word_at, words_at};

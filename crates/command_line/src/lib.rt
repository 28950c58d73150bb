//! The program's edge: from its words to the status that it ends with.
//!
//! `run` reads the words (`command_words`), serves what they name, and says on a second writer what has no
//! place on the first: faults, and what is wrong with words. The program itself is one call of it.
//!
//! The crate promises, by the contract of `run`, the status and what is written on both writers:
//! the status of what is served as it is and nothing on the second; its fault as `fault N` there
//! and 1; wrong words as 2, by what `clap` says of them; a request for help or for the version as 0. With
//! `--explain` output and status are the same, and words go to the second writer, of which nothing is
//! promised. `explain` writes the words of a number, exactly those of `fault_numbers`. `record` writes what `record_view`
//! reports of a file, with 0 exactly if the file would open. `merge` writes what `merge_service` promises.
//! `specs/CommandLine` says so.
//!
//! It stands on `command_words` for what the words ask for, `program_ends` for what is said of faults and of
//! words, `fault_numbers` for what numbers mean, `operator_cli`, `world_settings`, `run_service`, `merge_service`,
//! `explanations` for what is said in words, `record_view` and `file_plate` for files of records, `line_streams`,
//! `lock_messages`, `lock_model` and `clap`.
#![tactic(auto)]

mod ending;
mod explaining;
mod merging;
mod numbers;
mod records;
mod versions;

pub use ending::run;
pub use program_ends::{Ended, end_without_memory};

//! The command that merges journals of single actors, from the settings to the merged journal.
//!
//! `run_merge` opens the journals that are named, and reads settings from the first reader. Then it writes the settings
//! and one journal of all actors, or says for each actor which line is left, and why. `serve_merge` does the same with
//! journals that were opened, and returns what came of it.
//!
//! The crate promises, in the words of `journal_merger`: a merge is written exactly if the journals have one, after the
//! settings as they were read. It promises the status too. Of the words on the second writer it promises nothing.
//!
//! It stands on `journal_merger`, `line_merger` and `own_journals` for journals, `world_settings` for settings,
//! `operator_cli` for faults, `program_ends` for how a program ends, `event_lines` for the text of events,
//! `line_streams`, `world_model`, `lock_messages` and `hex`.
#![tactic(auto)]

mod ends;
mod opening;
mod running;
mod serving;
mod telling;

pub use ends::{MergeEnd, MergeFault};
pub use opening::open_journals;
pub use running::run_merge;
pub use serving::serve_merge;

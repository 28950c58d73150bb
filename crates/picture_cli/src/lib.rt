//! The drawing program's edge: from its words to the picture that is drawn and the status that it ends with.
//!
//! `run` reads the words by `clap`, and the settings in front of a journal as `rwvote audit` does; then it draws
//! the journal's lines, one after another. The picture goes onto a page, which is a canvas and a writer, and nothing
//! else does but help and the version; what else there is to say goes to a second writer, in the words of
//! `rwvote`. `SvgCanvas` is the page that writes SVG.
//!
//! The crate promises the status and what is said, by the contract of `run`: those of an audit of the same
//! input, but that a sound journal needs no word (`laws`). Which words are right, and which part of a journal they
//! name, is what `clap` finds in them; and what is drawn is the picture of that part, begun, with all marks that
//! `journal_picture` has of it and no others, and ended. Settings that are refused or can't be read leave the page
//! as it is, and so does want of memory for their world. `Drawing` and `Words` in `specs/` say so, for every page:
//! how `SvgCanvas` spells what is drawn on it is tested.
//!
//! It stands on `world_settings` for settings and the world that they open, `operator_cli` for what is said where they
//! are refused, `program_ends` for what is said of faults and of words, `journal_picture`, `picture_svg`, `run_picture`, `journal_audit`, `event_lines`,
//! `line_streams`, `world_machine`, `world_model`, `lock_model`, `lock_messages` and `clap`.
#![tactic(auto)]

mod canvases;
mod ending;
pub mod laws;
mod reading;
mod serving;

pub use canvases::SvgCanvas;
pub use ending::run;
pub use program_ends::{Ended, end_without_memory};
pub use serving::{Shown, draw_journal};

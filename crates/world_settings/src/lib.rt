//! Settings: the TOML document that an input begins with, and the world that it opens.
//!
//! Settings stand in front of the lines of an input, and a line `---` ends them. They tell of the world: its ballots,
//! the first problem of each node, and how many clients there are. They tell of a run too: the weather of its links, and
//! the wishes of its clients. `read_start` reads them from an input, and `read_settings` judges their text. `world_down`
//! opens their world, in which all actors are down and nothing is kept. The policies by which nodes decide are the
//! caller's.
//!
//! The crate promises what settings say, and what is wrong with any other text, as a stated function of the bytes
//! (`Settings` in `specs/`). It promises which bytes of an input are its settings (`Heads`), and which world they open
//! (`Openings`). Want of memory alone may put 925 in the place of what is said.
//!
//! It stands on `toml` for documents, `line_streams`, `event_lines` for wishes, `lossy_link` for the weather,
//! `vote_weights` for ballots, `admission_policy`, `world_machine` and `world_model` for the world, `lock_model`,
//! `lock_messages` and `thiserror`.
#![tactic(auto)]

mod commands;
mod faults;
mod heads;
pub mod laws;
mod openings;
mod settings;

pub use commands::Command;
pub use faults::SettingsFault;
pub use heads::{StartFault, read_head, read_start};
pub use openings::{Policies, add_pair, chosen, no_policies, world_down};
pub use settings::{Settings, Start, read_settings};

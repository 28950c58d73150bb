//! How a picture of a run is spelled as SVG: a head, a text for each mark, and an end.
//!
//! Time goes down, a column for each actor, nodes first. Each mark is one element with a `<title>` of its
//! own, which a browser shows at the pointer. The texts are made one after another, and none of them is
//! looked at again: how high the picture is stands in its end, where it isn't known before.
//!
//! The contract of `push_escaped` says what is added for each byte of a text, and `laws` that nothing of it ends
//! a text or an attribute, or begins a tag. Titles, texts of lines and labels are added by it, which no contract
//! says. Beyond that the crate promises that it is safe and returns; how marks look is tested.
//!
//! It stands on `run_picture`, `event_lines` for the text of an event, `world_model`, `lock_model` and
//! `lock_messages`.
#![tactic(auto)]

mod escaping;
mod frames;
pub mod laws;
mod legends;
mod shapes;
mod spelling;
mod texts;

pub use escaping::push_escaped;
pub use frames::Frame;
pub use spelling::{push_end, push_head, push_mark};

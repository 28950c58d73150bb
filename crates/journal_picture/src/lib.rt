//! The picture of a journal: each line is taken in the world, and what it did is drawn.
//!
//! `draw_lines` reads a journal line by line, as an audit does, and ends where an audit would: at the end, or at
//! the first line that is no event or that the world refuses. Each step is told to a `Drawer`, and each
//! mark goes onto a `Canvas`, one after another. It keeps the world, one line, and what a `Drawer` keeps. Whoever
//! calls it begins the picture on the canvas before, and ends it behind, where `draw_lines` says.
//!
//! The crate promises that the verdict is the one that an audit of the same lines has to find, and which marks
//! are drawn, all of them and in order: those of the history that the lines tell, and behind it those of its
//! end. `Drawings` in `specs/` says so. What is left of the input is what an audit leaves that finds the same. Of a
//! picture that a fault cut short it promises no more than that the fault is right, if it is 819.
//!
//! It stands on `journal_audit` for verdicts and for how lines are read, `event_lines` for lines, `line_streams`,
//! `run_picture`, `stable_record` for what a node has kept, `world_machine`, `world_model`, `lock_model`,
//! `lock_messages` and `thiserror`.
#![tactic(auto)]

mod canvases;
mod drawing;
mod ending;
mod telling;

pub use canvases::{Canvas, CanvasFault};
pub use drawing::draw_lines;
pub use ending::Drawing;

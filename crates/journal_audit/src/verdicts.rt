// What an audit finds.

use event_lines::LineFault;
use world_model::StepFault;

/// The most lines that a journal has.
pub const MAX_LINES: u32 = 4_194_304;

/// What is wrong with a line of a journal.
#[derive(Clone, Copy, Debug, PartialEq, Eq)]
pub enum Cause {
    /// It is no event.
    Line(LineFault),
    /// It is an event that the world refuses.
    Refused(StepFault),
}

/// What is found of a journal.
#[derive(Clone, Copy, Debug, PartialEq, Eq)]
pub enum Verdict {
    /// So many lines, which are a run.
    Sound(u32),
    /// The lines before that of this number, from 1 on, are a run, and this one doesn't go on with it.
    Unsound(u32, Cause),
}

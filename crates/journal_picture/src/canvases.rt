// Where pictures go.

ghost use Rattle.std.specs.Prelude.{◌≡◌, [], ◌∷◌, List, Option, OnOk};
ghost use Rattle.journal_picture.specs.Histories.{with_more};
ghost use Rattle.journal_picture.specs.Strokes.{Stroke, Begun, Ended, with_strokes};

use run_picture::{Mark, Part, Place};
use thiserror::Error;

/// Why something wasn't drawn.
#[derive(Clone, Copy, Debug, PartialEq, Eq, Error)]
pub enum CanvasFault {
    /// What it is drawn on failed.
    #[error("the mark couldn't be written")]
    Write,
    /// Memory was refused.
    #[error("there was no memory")]
    Memory,
}

/// Where pictures go: each is begun, gets its marks one after another, and is ended.
///
/// What a call that answers a fault has done is not promised.
pub trait Canvas {
    /// What was done on it, in order, where it knows it.
    ghost drawn: { Self → Option (List Stroke) };

    /// Begins the picture of a part, with a column for each of so many nodes and of so many clients.
    fn begin(&mut self, nodes: u8, clients: u16, part: &Part) -> Result<(), CanvasFault>
        ensures { OnOk result (drawn self.new ≡ with_strokes (Begun nodes clients part.now ∷ []) (drawn self.old)) };

    /// Draws a mark behind the others.
    fn draw(&mut self, mark: &Mark) -> Result<(), CanvasFault>
        ensures { OnOk result (drawn self.new ≡ with_more (mark.now ∷ []) (drawn self.old)) };

    /// Ends the picture at this place.
    fn end(&mut self, at: &Place) -> Result<(), CanvasFault>
        ensures { OnOk result (drawn self.new ≡ with_strokes (Ended at.now ∷ []) (drawn self.old)) };
}

//! Laws of the definitions. Each function computes nothing: its contract is a theorem.

ghost use Rattle.frame_numbers.specs.FrameNumbers.{IndexesGrow};

/// An index stays one as messages are added.
pub fn indexes_grow()
    ensures { IndexesGrow }
{}

//! Laws of pictures. Each function computes nothing: its contract is a theorem.

ghost use Rattle.std.specs.Prelude.{◌≡◌};

use crate::MAX_ROWS;

/// The limit by number: at most 4,194,304 lines are drawn.
pub fn limits()
    ensures { MAX_ROWS ≡ 4194304 }
{}

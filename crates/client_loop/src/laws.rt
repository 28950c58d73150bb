//! Laws of the limits. The function computes nothing: its contract is a theorem.

ghost use Rattle.std.specs.Prelude.{◌≡◌};

use crate::MAX_NUDGES;

/// The limit by number: a wish ends with its nudge 1,000.
pub fn limits()
    ensures nudges { MAX_NUDGES ≡ 1000 }
{}

//! Laws of the limits. The function computes nothing: its contract is a theorem.

ghost use Rattle.std.specs.Prelude.{◌≡◌};

use crate::MAX_REOPENS;

/// The limit by number: a record is reopened three times.
pub fn limits()
    ensures reopens { MAX_REOPENS ≡ 3 }
{}

//! Laws of the limits. The function computes nothing: its contract is a theorem.

ghost use Rattle.std.specs.Prelude.{◌≡◌};

use crate::heads::HEAD_ROOM;

/// The limit by number: the line that ends settings begins within the first 65,536 bytes.
pub fn limits()
    ensures bytes { HEAD_ROOM ≡ 65536 }
{}

//! Laws of the limits. The function computes nothing: its contract is a theorem.

ghost use Rattle.std.specs.Prelude.{◌≡◌};

use crate::{MARK, ROTATING_PLATE_LEN};

/// The limits by number: a plate with three slots has at least 200,704 bytes, and begins with the eight
/// bytes of 8,248,191,463,618,589,450.
pub fn limits()
    ensures bytes { ROTATING_PLATE_LEN ≡ 200704 }
    ensures mark { MARK ≡ 8248191463618589450 }
{}

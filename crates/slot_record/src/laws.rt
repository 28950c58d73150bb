//! Laws of the limits. The function computes nothing: its contract is a theorem.

ghost use Rattle.std.specs.Prelude.{◌≡◌};

use crate::{CLOSED, LEAST_PLATE_LEN, MAX_SEQUENCE, OPEN, SLOT_LEN};

/// The limits by number: records are numbered up to 1,000,000,000,000, and a plate has at least 120,026
/// bytes, 60,013 for each of its two slots. An open gate is 1, and one is closed by 0.
pub fn limits()
    ensures sequences { MAX_SEQUENCE ≡ 1000000000000 }
    ensures bytes { LEAST_PLATE_LEN ≡ 120026 }
    ensures slots { SLOT_LEN ≡ 60013 }
    ensures open { OPEN ≡ 1 }
    ensures closed { CLOSED ≡ 0 }
{}

//! Laws of the definitions. Each function computes nothing: its contract is a theorem.

ghost use Rattle.std.specs.Prelude.{◌≡◌};
ghost use Rattle.lock_messages.specs.Fields.{FieldsAreExact};
ghost use Rattle.lock_messages.specs.Laws.{OneSpelling};

use crate::{MAX_ATTEMPT, MAX_CLIENTS, MAX_NAME_LEN, MAX_NODES};

/// Each message has one spelling, and no spelling begins another.
pub fn one_spelling()
    ensures { OneSpelling }
{}

/// A field of a layout is read exactly where its spelling stands in front, whatever the layout's
/// faults `F` are.
pub fn fields_are_exact<F>()
    ensures { FieldsAreExact F }
{}

/// The limits by number: 16 nodes, 1,024 clients, attempts up to 1,000,000,000,000 and names of 32 bytes.
pub fn limits()
    ensures nodes { MAX_NODES ≡ 16 }
    ensures clients { MAX_CLIENTS ≡ 1024 }
    ensures attempts { MAX_ATTEMPT ≡ 1000000000000 }
    ensures names { MAX_NAME_LEN ≡ 32 }
{}

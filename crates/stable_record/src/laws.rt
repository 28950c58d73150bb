//! Laws of the definitions. Each function computes nothing: its contract is a theorem.

ghost use Rattle.std.specs.Prelude.{◌≡◌};
ghost use Rattle.stable_record.specs.Laws.{OneSpelling, OneClientSpelling, EntriesAreFew, CallsGoOn, StrangersLeaveTheIndex};

use crate::{MAX_RECORD_LEN, RecordFault};

/// Each record has one spelling, and no spelling begins another.
pub fn one_spelling()
    ensures nodes { OneSpelling }
    ensures clients { OneClientSpelling }
{
    lock_messages::laws::fields_are_exact::<RecordFault>();
}

/// Entries in range, of each client one at most, are no more than there are clients.
pub fn entries_are_few()
    ensures { EntriesAreFew }
{}

/// The calls of a failing device are numbered one after the other, as far as multiples go.
pub fn calls_go_on()
    ensures { CallsGoOn }
{}

/// An entry without a live ticket that comes behind the others leaves an index that of the entries.
pub fn strangers_leave_the_index()
    ensures { StrangersLeaveTheIndex }
{}

/// The limit by number: a record has at most 60,000 bytes.
pub fn limits()
    ensures bytes { MAX_RECORD_LEN ≡ 60000 }
{}

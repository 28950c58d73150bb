// What a record on a plate knows of its slots.

ghost use Rattle.std.specs.Prelude.{◌≡◌, ◌<◌};
ghost use Rattle.rotating_record.specs.Keeping.{next_of};

use crate::slots::Slot;
use slot_record::MAX_SEQUENCE;

/// What is known of the slots while the plate is synced. After a fault it still names the slot that had
/// the record, and reopening finds out whether the one after it has it now.
#[derive(Clone, Copy)]
pub(crate) struct Known {
    /// The slot that has the record.
    pub(crate) own: Slot,
    /// Its sequence.
    pub(crate) sequence: u64,
}

impl Known {
    /// What is known after the next slot's gate was opened.
    pub(crate) fn next(self) -> Known
        requires { self.sequence < MAX_SEQUENCE }
        ensures { result ≡ next_of self }
    {
        Known {
            own: self.own.next(),
            sequence: self.sequence + 1,
        }
    }
}

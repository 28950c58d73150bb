// What a record on a plate knows of its slots.

ghost use Rattle.std.specs.Prelude.{◌≡◌, ◌<◌};
ghost use Rattle.slot_record.specs.Records.{is_stuck, failed_of};
ghost use Rattle.slot_record.specs.Keeping.{next_of};

use crate::slots::{MAX_SEQUENCE, Slot};

/// What is known of the slots while the plate is synced.
/// After a fault it still names the slot that has the record, and reopen finds out whether the other one has it now.
#[derive(Clone, Copy)]
pub(crate) struct Known {
    /// The slot that has the record.
    pub(crate) own: Slot,
    /// Its sequence.
    pub(crate) sequence: u64,
    /// Whether the other slot's gate is open.
    pub(crate) other_open: bool,
}

/// Which bodies opening may find on a plate.
#[derive(Clone, Copy)]
pub enum Standing {
    /// The plate is synced: the body of the slot that has the record.
    Settled,
    /// A call failed: that body still.
    Failed,
    /// A call failed while the gate of the next record was opened: either body.
    Either,
}

impl Known {
    /// What is known after the other slot's gate was opened over the next record.
    pub(crate) fn next(self) -> Known
        requires { self.sequence < MAX_SEQUENCE }
        ensures { result ≡ next_of self }
    {
        Known {
            own: self.own.other(),
            sequence: self.sequence + 1,
            other_open: true,
        }
    }
}

impl Standing {
    /// Whether a call has failed.
    pub fn is_stuck(self) -> bool
        ensures { result ≡ is_stuck self }
    {
        match self {
            Standing::Settled => false,
            Standing::Failed | Standing::Either => true,
        }
    }

    /// After another call failed.
    pub fn failed(self) -> Standing
        ensures { result ≡ failed_of self }
    {
        match self {
            Standing::Settled => Standing::Failed,
            Standing::Failed => Standing::Failed,
            Standing::Either => Standing::Either,
        }
    }
}

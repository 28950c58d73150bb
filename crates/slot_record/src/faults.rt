// Why a plate's call failed, and why a plate's record could not be made, found or kept.

ghost use Rattle.std.specs.Prelude.{◌≡◌};
ghost use Rattle.slot_record.specs.Faults.{slot_fault_number, as_record_fault};

use stable_record::RecordFault;
use thiserror::Error;

/// A device call failed.
#[derive(Clone, Copy, Debug, PartialEq, Eq, Error)]
#[error("the device failed")]
pub struct PlateFault;

/// Why a record on a plate could not be made, found or kept.
#[derive(Clone, Copy, Debug, PartialEq, Eq, Error)]
pub enum SlotFault {
    /// 401: the plate has fewer than `LEAST_PLATE_LEN` bytes.
    #[error("the plate is too small")]
    TooSmall,
    /// 402: a device call failed.
    #[error("the device failed")]
    Device,
    /// 403: no slot of the plate counts.
    #[error("the plate is not formatted")]
    NotFormatted,
    /// 404: the bytes are more than `MAX_RECORD_LEN`.
    #[error("the record is too long")]
    TooLong,
    /// 405: the record's sequence is the greatest.
    #[error("no change can be numbered any more")]
    Spent,
    /// 406: memory was refused.
    #[error("out of memory")]
    Memory,
}

impl SlotFault {
    /// The fault's number, as programs print it.
    pub fn number(self) -> u16
        ensures { result ≡ slot_fault_number self }
    {
        match self {
            SlotFault::TooSmall => 401,
            SlotFault::Device => 402,
            SlotFault::NotFormatted => 403,
            SlotFault::TooLong => 404,
            SlotFault::Spent => 405,
            SlotFault::Memory => 406,
        }
    }

    /// What the fault is called as a `StableRecord`'s: 402 is 301, 404 is 303, 405 is 305, 406 is
    /// 304. The others are no faults of a record.
    pub fn as_record_fault(self) -> Option<RecordFault>
        ensures { result ≡ as_record_fault self }
    {
        match self {
            SlotFault::Device => Some(RecordFault::Device),
            SlotFault::TooLong => Some(RecordFault::TooLong),
            SlotFault::Spent => Some(RecordFault::Spent),
            SlotFault::Memory => Some(RecordFault::Memory),
            SlotFault::TooSmall | SlotFault::NotFormatted => None,
        }
    }
}

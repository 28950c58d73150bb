// Why a record could not be kept, found, written or read.

ghost use Rattle.std.specs.Prelude.{◌≡◌};
ghost use Rattle.stable_record.specs.Faults.{fault_number};

use thiserror::Error;

/// Why a record could not be kept or found (301 to 305), or why bytes are no node record (311 to
/// 320) or no client record (321 to 324): there the first fault from the front.
#[derive(Clone, Copy, Debug, PartialEq, Eq, Error)]
pub enum RecordFault {
    /// 301: the device failed.
    #[error("the device failed")]
    Device,
    /// 302: a change has failed, and the record wasn't reopened since.
    #[error("the record is stuck until it is reopened")]
    Stuck,
    /// 303: the bytes are more than `MAX_RECORD_LEN`.
    #[error("the record is too long")]
    TooLong,
    /// 304: memory was refused.
    #[error("out of memory")]
    Memory,
    /// 305: no change can be numbered any more.
    #[error("no change can be numbered any more")]
    Spent,
    /// 311: a field of a node record isn't wholly there.
    #[error("the node record ends within a field")]
    Short,
    /// 312: the version of a node record isn't 1.
    #[error("the node record is of another version")]
    Version,
    /// 313: the problem isn't 1 or 2.
    #[error("no problem has this number")]
    Policy,
    /// 314: the number of entries, or a field of an entry, is out of its range. A softened ticket's mode
    /// is `Read`.
    #[error("an entry is out of range")]
    EntryField,
    /// 315: an earlier entry is of the same client.
    #[error("a client has two entries")]
    ClientTwice,
    /// 316: an attempt isn't one above its client's floor.
    #[error("an attempt isn't one above the floor")]
    AttemptNotNext,
    /// 317: a writer holds a resource beside another holder.
    #[error("a writer that holds isn't alone")]
    WriterNotAlone,
    /// 318: a ticket waits without a cause.
    #[error("a ticket waits without a cause")]
    NoCause,
    /// 319: bytes follow a whole node record.
    #[error("bytes follow the node record")]
    Trailing,
    /// 320: memory was refused while a node record was read or written.
    #[error("out of memory for a node record")]
    NoMemory,
    /// 321: a client record has too few bytes.
    #[error("the client record ends within a field")]
    ClientShort,
    /// 322: the version of a client record isn't 1.
    #[error("the client record is of another version")]
    ClientVersion,
    /// 323: the attempt of a client record is above the greatest.
    #[error("no attempt has this number")]
    ClientAttempt,
    /// 324: bytes follow a whole client record.
    #[error("bytes follow the client record")]
    ClientTrailing,
}

impl RecordFault {
    /// The fault's number, as programs print it.
    pub fn number(self) -> u16
        ensures { result ≡ fault_number self }
    {
        match self {
            RecordFault::Device => 301,
            RecordFault::Stuck => 302,
            RecordFault::TooLong => 303,
            RecordFault::Memory => 304,
            RecordFault::Spent => 305,
            RecordFault::Short => 311,
            RecordFault::Version => 312,
            RecordFault::Policy => 313,
            RecordFault::EntryField => 314,
            RecordFault::ClientTwice => 315,
            RecordFault::AttemptNotNext => 316,
            RecordFault::WriterNotAlone => 317,
            RecordFault::NoCause => 318,
            RecordFault::Trailing => 319,
            RecordFault::NoMemory => 320,
            RecordFault::ClientShort => 321,
            RecordFault::ClientVersion => 322,
            RecordFault::ClientAttempt => 323,
            RecordFault::ClientTrailing => 324,
        }
    }
}

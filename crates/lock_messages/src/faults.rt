// Why bytes are no frame, or a frame could not be made.

ghost use Rattle.std.specs.Prelude.{◌≡◌};
ghost use Rattle.lock_messages.specs.Reading.{fault_number};
ghost use Rattle.lock_messages.specs.declared.faults.FrameFault.TheVariants.{Memory};

use std::alloc::{AllocError, AllocFailed};
use thiserror::Error;

/// Why bytes are no frame: the first field from the front that isn't wholly there or whose value
/// is wrong; or, when a frame is made, that memory was refused.
#[derive(Clone, Copy, Debug, PartialEq, Eq, Error)]
pub enum FrameFault {
    /// 101: a field isn't wholly there.
    #[error("the frame ends within a field")]
    Short,
    /// 102: the version isn't 1 or 2.
    #[error("the frame is of another version")]
    Version,
    /// 103: the version has no such kind: version 1 has 1 to 7, version 2 has 8 and 9.
    #[error("no message has this kind")]
    Kind,
    /// 104: the node isn't 1 to `MAX_NODES`.
    #[error("no node has this number")]
    Node,
    /// 105: the client isn't 1 to `MAX_CLIENTS`.
    #[error("no client has this number")]
    Client,
    /// 106: the attempt isn't 1 to `MAX_ATTEMPT`.
    #[error("no attempt has this number")]
    Attempt,
    /// 107: the mode isn't 0 or 1.
    #[error("this is neither a reader nor a writer")]
    Mode,
    /// 108: the name's length isn't 1 to `MAX_NAME_LEN`.
    #[error("no name has this length")]
    NameLength,
    /// 109: a byte of the name isn't a lower-case letter, a digit or a dash.
    #[error("no name has this byte")]
    NameByte,
    /// 110: bytes follow a whole frame.
    #[error("bytes follow the frame")]
    Trailing,
    /// 111: memory was refused.
    #[error("out of memory")]
    Memory,
}

impl FrameFault {
    /// The fault's number, as programs print it.
    pub fn number(self) -> u16
        ensures { result ≡ fault_number self }
    {
        match self {
            FrameFault::Short => 101,
            FrameFault::Version => 102,
            FrameFault::Kind => 103,
            FrameFault::Node => 104,
            FrameFault::Client => 105,
            FrameFault::Attempt => 106,
            FrameFault::Mode => 107,
            FrameFault::NameLength => 108,
            FrameFault::NameByte => 109,
            FrameFault::Trailing => 110,
            FrameFault::Memory => 111,
        }
    }
}

impl From<AllocError> for FrameFault {
    ghost from_gives = { λ _ fault. fault ≡ Memory };

    fn from(_error: AllocError) -> FrameFault {
        FrameFault::Memory
    }
}

impl<T: Drop> From<AllocFailed<T>> for FrameFault {
    ghost from_gives = { λ _ fault. fault ≡ Memory };

    fn from(_error: AllocFailed<T>) -> FrameFault {
        FrameFault::Memory
    }
}

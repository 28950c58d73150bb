// Why a world can't be opened.

ghost use Rattle.std.specs.Prelude.{◌≡◌};
ghost use Rattle.world_opening.specs.Openings.{fault_number};

use lock_messages::Actor;
use thiserror::Error;

/// Why a world can't be opened.
#[derive(Clone, Copy, Debug, PartialEq, Eq, Error)]
pub enum OpeningFault {
    /// 613: there was no memory.
    #[error("there was no memory")]
    Memory,
    /// 621: an entry's floor or attempt is above the attempt that its client has kept.
    #[error("an entry is above the attempt that its client has kept")]
    EntryAboveAttempt,
    /// 622: the actor's record can't be read.
    #[error("the actor's record can't be read")]
    NoRecord(Actor),
}

impl OpeningFault {
    /// The number by which programs print the fault: 613, 621 or 622.
    pub fn number(self) -> u16
        ensures { result ≡ fault_number self }
    {
        match self {
            OpeningFault::Memory => 613,
            OpeningFault::EntryAboveAttempt => 621,
            OpeningFault::NoRecord(_) => 622,
        }
    }
}

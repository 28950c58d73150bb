// Why a client can't begin an attempt.

ghost use Rattle.std.specs.Prelude.{◌≡◌};
ghost use Rattle.client_core.specs.Faults.{fault_number};

use thiserror::Error;

/// Why a client can't begin an attempt.
#[derive(Clone, Copy, Debug, PartialEq, Eq, Error)]
pub enum ClientFault {
    /// An attempt is under way. Number 701.
    #[error("an attempt is under way")]
    NotIdle,
    /// The greatest attempt was begun already. Number 702.
    #[error("no attempt is left")]
    AttemptsSpent,
    /// The list of ballots doesn't have the place. Number 703.
    #[error("there is no ballot at this place")]
    NoSuchPlace,
}

impl ClientFault {
    /// The number by which programs print the fault: 701, 702, 703, in the order of the variants.
    pub fn number(self) -> u16
        ensures { result ≡ fault_number self }
    {
        match self {
            ClientFault::NotIdle => 701,
            ClientFault::AttemptsSpent => 702,
            ClientFault::NoSuchPlace => 703,
        }
    }
}

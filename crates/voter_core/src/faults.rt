// Why a node can't rise, or take a message or another problem.

ghost use Rattle.std.specs.Prelude.{◌≡◌};
ghost use Rattle.voter_core.specs.Faults.{fault_number};

use stable_record::RecordFault;
use thiserror::Error;

/// Why a node can't rise with a record, or why it can't take a message or another problem (memory alone).
#[derive(Clone, Copy, Debug, PartialEq, Eq, Error)]
pub enum VoterFault {
    /// 501: the bytes are no node record, with the first fault that reading them meets.
    #[error("the node record can't be read: {0}")]
    Unreadable(RecordFault),
    /// 503: memory was refused.
    #[error("out of memory")]
    Memory,
}

impl VoterFault {
    /// The number by which programs print the fault: 501 or 503, in the order of the variants.
    pub fn number(self) -> u16
        ensures { result ≡ fault_number self }
    {
        match self {
            VoterFault::Unreadable(_) => 501,
            VoterFault::Memory => 503,
        }
    }
}

// Why numbers make no ballot, and ballots no list.

ghost use Rattle.std.specs.Prelude.{◌≡◌};
ghost use Rattle.vote_weights.specs.Faults.{fault_number};

use thiserror::Error;

/// Why numbers make no ballot, and ballots no list.
#[derive(Clone, Copy, Debug, PartialEq, Eq, Error)]
pub enum BallotFault {
    /// There is no node. Number 201.
    #[error("the ballot has no node")]
    NoNode,
    /// There are more nodes than `MAX_NODES`. Number 202.
    #[error("the ballot has more than 16 nodes")]
    TooManyNodes,
    /// A reader or a writer needs more votes than there are, so it could never enter. Number 203.
    #[error("a reader or a writer needs more votes than all nodes have")]
    OverTotal,
    /// A read and a write that each have enough votes need not have any in common (Gifford 1979).
    /// Number 204.
    #[error("a read and a write can have enough votes with none in common")]
    ReadsMissWrites,
    /// Two writes that each have enough votes need not have any in common (our own rule).
    /// Number 205.
    #[error("two writes can have enough votes with none in common")]
    WritesMiss,
    /// Under the ballots at these two places of a list a read and a write, or two writes, that each have
    /// enough votes need not have any at a common node (our own rule). Number 206.
    #[error("the ballots at places {0} and {1} can each have enough votes with none at a common node")]
    BallotsMiss(u8, u8),
    /// There is no ballot in the list. Number 207.
    #[error("the list has no ballot")]
    NoBallot,
    /// There are more ballots in the list than `MAX_BALLOTS`. Number 208.
    #[error("the list has more than 8 ballots")]
    TooManyBallots,
}

impl BallotFault {
    /// The number by which programs print the fault: 201 to 208, in the order of the variants.
    pub fn number(self) -> u16
        ensures { result ≡ fault_number self }
    {
        match self {
            BallotFault::NoNode => 201,
            BallotFault::TooManyNodes => 202,
            BallotFault::OverTotal => 203,
            BallotFault::ReadsMissWrites => 204,
            BallotFault::WritesMiss => 205,
            BallotFault::BallotsMiss(_, _) => 206,
            BallotFault::NoBallot => 207,
            BallotFault::TooManyBallots => 208,
        }
    }
}

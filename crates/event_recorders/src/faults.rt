// Why a thread ended before its work was done.

ghost use Rattle.std.specs.Prelude.{◌≡◌};
ghost use Rattle.event_recorders.specs.Faults.{run_fault_number};

use thiserror::Error;

/// Why an actor's thread ended before its work was done. Programs print the number.
#[derive(Clone, Copy, Debug, PartialEq, Eq, Error)]
pub enum RunFault {
    /// 911: three reopens of a record failed in a row.
    #[error("the record failed to reopen three times in a row")]
    NotReopened,
    /// 912: the nodes that granted and those that aren't gone aren't enough.
    #[error("too few nodes are left")]
    TooFewNodes,
    /// 913: it gave up at its last nudge: the thousandth of one wish in a run, and in a session the last that
    /// the call allows.
    #[error("gave up at its last nudge")]
    GaveUp,
    /// 914: memory was refused, or a thread couldn't be started.
    #[error("out of memory, or no thread could be started")]
    Memory,
    /// 915: the book is full, or the berth is another book's.
    #[error("the book takes no more events of this actor")]
    Book,
    /// 916: no change of the record can be numbered any more, or the client's attempts are spent.
    #[error("the record or the attempts are spent")]
    Spent,
}

impl RunFault {
    /// The number by which programs print the fault: 911 to 916.
    pub fn number(self) -> u16
        ensures { result ≡ run_fault_number self }
    {
        match self {
            RunFault::NotReopened => 911,
            RunFault::TooFewNodes => 912,
            RunFault::GaveUp => 913,
            RunFault::Memory => 914,
            RunFault::Book => 915,
            RunFault::Spent => 916,
        }
    }
}

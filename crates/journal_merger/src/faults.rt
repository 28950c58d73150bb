// Why nothing was found of journals.

ghost use Rattle.std.specs.Prelude.{◌≡◌};
ghost use Rattle.journal_merger.specs.Faults.{journals_fault_number};

use thiserror::Error;

/// Why nothing was found of journals. Programs print the number.
#[derive(Clone, Copy, Debug, PartialEq, Eq, Error)]
pub enum JournalsFault {
    /// 951: the journal has no line, so it is no actor's.
    #[error("the journal has no line")]
    NoActor,
    /// 952: another journal is of the same actor.
    #[error("another journal is of the same actor")]
    SameActor,
    /// 953: a line of the journal is not a line of an actor's own journal.
    #[error("not a line of an actor's own journal")]
    NoLine,
    /// 954: a line names another actor than the journal's.
    #[error("a line of another actor")]
    OtherActor,
    /// 955: the journals say more messages than the list of messages has room for.
    #[error("the list of messages is full")]
    Full,
    /// 956: the journal couldn't be read.
    #[error("the journal couldn't be read")]
    Read,
    /// 957: the merged journal couldn't be written.
    #[error("the merged journal couldn't be written")]
    Write,
    /// 958: out of memory.
    #[error("out of memory")]
    Memory,
    /// 959: the journals have too many lines.
    #[error("the journals have too many lines")]
    TooManyLines,
}

impl JournalsFault {
    /// The number by which programs print the fault: 951 to 959.
    pub fn number(self) -> u16
        ensures { result ≡ journals_fault_number self }
    {
        match self {
            JournalsFault::NoActor => 951,
            JournalsFault::SameActor => 952,
            JournalsFault::NoLine => 953,
            JournalsFault::OtherActor => 954,
            JournalsFault::Full => 955,
            JournalsFault::Read => 956,
            JournalsFault::Write => 957,
            JournalsFault::Memory => 958,
            JournalsFault::TooManyLines => 959,
        }
    }
}

/// A fault, and the journal at which it was met.
#[derive(Clone, Copy, Debug, PartialEq, Eq)]
pub struct Failure {
    /// The index of the journal that was read or offered last.
    pub journal: usize,
    /// What went wrong.
    pub fault: JournalsFault,
}

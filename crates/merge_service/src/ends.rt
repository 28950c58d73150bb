// What comes of a merge.

ghost use Rattle.std.specs.Prelude.{◌≡◌};
ghost use Rattle.merge_service.specs.Merging.{refused_of, failure_status, merge_status};

use journal_merger::{Failure, JournalsFault};
use operator_cli::ServeFault;

/// What came of a merge.
#[derive(Clone, Copy, Debug, PartialEq, Eq)]
pub enum MergeEnd {
    /// The journals have a merge, which was written.
    Merged,
    /// They have none.
    Stuck,
    /// The settings are refused, which was written.
    Refused,
}

/// Why nothing came of a merge.
#[derive(Clone, Copy, Debug, PartialEq, Eq)]
pub enum MergeFault {
    /// The settings couldn't be read, or the settings or the verdict couldn't be written, or out of memory.
    Serve(ServeFault),
    /// A fault of the journals.
    Journals(Failure),
}

/// What came of a merge whose settings are refused.
pub(crate) fn refused(came: Result<u8, ServeFault>) -> Result<MergeEnd, MergeFault>
    ensures { result ≡ refused_of came }
{
    match came {
        Ok(_) => Ok(MergeEnd::Refused),
        Err(fault) => Err(MergeFault::Serve(fault)),
    }
}

/// The status of a program that met this fault of a journal: 2 if a journal has to be mended, else 1.
pub(crate) fn failure_status(fault: JournalsFault) -> u8
    ensures { result ≡ failure_status fault }
{
    match fault {
        JournalsFault::NoActor => 2,
        JournalsFault::SameActor => 2,
        JournalsFault::NoLine => 2,
        JournalsFault::OtherActor => 2,
        JournalsFault::Read => 2,
        JournalsFault::Full => 1,
        JournalsFault::Write => 1,
        JournalsFault::Memory => 1,
        JournalsFault::TooManyLines => 1,
    }
}

/// The status of a program in which this came of a merge.
pub(crate) fn merge_status(came: Result<MergeEnd, MergeFault>) -> u8
    ensures { result ≡ merge_status came }
{
    match came {
        Ok(MergeEnd::Merged) => 0,
        Ok(MergeEnd::Stuck) => 1,
        Ok(MergeEnd::Refused) => 2,
        Err(MergeFault::Serve(_)) => 1,
        Err(MergeFault::Journals(failure)) => failure_status(failure.fault),
    }
}

// Why a journal wasn't written.

ghost use Rattle.std.specs.Prelude.{◌≡◌};
ghost use Rattle.journal_text.specs.Faults.{journal_fault_number};

use thiserror::Error;

/// Why a journal wasn't written, or not all of it. Programs print the number.
#[derive(Clone, Copy, Debug, PartialEq, Eq, Error)]
pub enum JournalFault {
    /// 817: the writer failed, or took nothing.
    #[error("the journal couldn't be written")]
    Write,
    /// 818: memory was refused.
    #[error("there was no memory for the journal")]
    Memory,
}

impl JournalFault {
    /// The number by which programs print the fault: 817 or 818.
    pub fn number(self) -> u16
        ensures { result ≡ journal_fault_number self }
    {
        match self {
            JournalFault::Write => 817,
            JournalFault::Memory => 818,
        }
    }
}

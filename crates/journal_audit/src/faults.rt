// Why an audit came to no verdict.

ghost use Rattle.std.specs.Prelude.{◌≡◌};
ghost use Rattle.journal_audit.specs.Faults.{audit_fault_number};

use thiserror::Error;

/// Why an audit came to no verdict, or couldn't tell it. Programs print the number.
#[derive(Clone, Copy, Debug, PartialEq, Eq, Error)]
pub enum AuditFault {
    /// 816: the reader failed, or 600,000,000 reads were made.
    #[error("the journal couldn't be read")]
    Read,
    /// 817: the writer failed.
    #[error("the verdict couldn't be written")]
    Write,
    /// 818: memory was refused.
    #[error("there was no memory")]
    Memory,
    /// 819: there are more than `MAX_LINES` lines.
    #[error("the journal has too many lines")]
    TooManyLines,
}

impl AuditFault {
    /// The number by which programs print the fault: 816 to 819.
    pub fn number(self) -> u16
        ensures { result ≡ audit_fault_number self }
    {
        match self {
            AuditFault::Read => 816,
            AuditFault::Write => 817,
            AuditFault::Memory => 818,
            AuditFault::TooManyLines => 819,
        }
    }
}

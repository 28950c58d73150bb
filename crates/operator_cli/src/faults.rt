// Why a whole run ends before its output is whole, each reason with its number.

ghost use Rattle.std.specs.Prelude.{◌≡◌};
ghost use Rattle.operator_cli.specs.Faults.{serve_fault_number};

use journal_audit::AuditFault;
use thiserror::Error;

/// Why a run ended before its output was whole. What was written is a beginning of it.
#[derive(Clone, Copy, Debug, PartialEq, Eq, Error)]
pub enum ServeFault {
    /// 931: the reader failed, or 600,000,000 reads were made.
    #[error("reading standard input failed")]
    Read,
    /// 932: the writer failed.
    #[error("writing standard output failed")]
    Write,
    /// 933: out of memory.
    #[error("out of memory")]
    Memory,
    /// 816 to 819: the audit of a journal met this.
    #[error("{0}")]
    Audit(AuditFault),
}

impl ServeFault {
    /// The number by which programs print the fault: 931 to 933, or the audit's 816 to 819.
    pub fn number(self) -> u16
        ensures { result ≡ serve_fault_number self }
    {
        match self {
            ServeFault::Read => 931,
            ServeFault::Write => 932,
            ServeFault::Memory => 933,
            ServeFault::Audit(fault) => fault.number(),
        }
    }
}

// The status of a program, and what it says on the second writer.

ghost use Rattle.std.specs.Prelude.{◌≡◌};
ghost use Rattle.std.specs.IoError.{error_kind};
ghost use Rattle.clap.specs.Words.{Kinds};
ghost use Rattle.operator_cli.specs.declared.faults.ServeFault.TheVariants as fault;
ghost use Rattle.program_ends.specs.Endings.{EndsSaying, TellsFault, EndsUnread, EndsFor, EndsUnserved, Shows, fault_text};
ghost use Rattle.program_ends.specs.Wordings.{IsUnserved};

use crate::Unserved;
use line_streams::write_text;
use operator_cli::{AuditFault, ServeFault};
use std::io;
use std::io::{ErrorKind, Write};

/// How a program ended.
#[derive(Clone, Copy, Debug, PartialEq, Eq)]
pub struct Ended {
    /// What the program ends with: 0, 1 or 2.
    pub status: u8,
    /// Whether all that was to be said on the second writer was written there.
    pub told: bool,
}

/// Says a text on the second writer, and ends with this status.
pub fn say<E: Write>(status: u8, text: &str, errors: &mut E) -> Ended
    ensures { EndsSaying status text.now (E.contents errors.old) (E.contents errors.new) result }
{
    match write_text(errors, text.as_bytes()) {
        Ok(()) => Ended { status, told: true },
        Err(_) => Ended {
            status,
            told: false,
        },
    }
}

/// What is said of a fault of an audit.
fn audit_fault_text(met: AuditFault) -> &'static str
    ensures { result.now ≡ fault_text (fault.Audit met) }
{
    match met {
        AuditFault::Read => "fault 816\n",
        AuditFault::Write => "fault 817\n",
        AuditFault::Memory => "fault 818\n",
        AuditFault::TooManyLines => "fault 819\n",
    }
}

/// What is said of a fault: a fixed text, so that want of memory can be told without memory.
fn fault_text(fault: ServeFault) -> &'static str
    ensures { result.now ≡ fault_text fault }
{
    match fault {
        ServeFault::Read => "fault 931\n",
        ServeFault::Write => "fault 932\n",
        ServeFault::Memory => "fault 933\n",
        ServeFault::Audit(fault) => audit_fault_text(fault),
    }
}

/// Tells a fault, as `fault N`, and ends with status 1.
pub fn tell_fault<E: Write>(fault: ServeFault, errors: &mut E) -> Ended
    ensures { TellsFault fault (E.contents errors.old) (E.contents errors.new) result }
{
    say(1, fault_text(fault), errors)
}

/// Ends a program that has no memory to begin: tells `fault 933`, with status 1.
pub fn end_without_memory<E: Write>(errors: &mut E) -> Ended
    ensures { TellsFault fault.Memory (E.contents errors.old) (E.contents errors.new) result }
{
    tell_fault(ServeFault::Memory, errors)
}

/// Ends a program whose words could not be taken: where memory was refused it tells `fault 933`, with status
/// 1; else that a word is not UTF-8, with status 2.
pub fn tell_unread<E: Write>(error: io::Error, errors: &mut E) -> Ended
    ensures { EndsUnread (error_kind error ≡ ErrorKind.OutOfMemory) (E.contents errors.old) (E.contents errors.new) result }
{
    if error.kind() == ErrorKind::OutOfMemory {
        return tell_fault(ServeFault::Memory, errors);
    }
    say(
        2,
        "error: a command-line argument is not UTF-8 text\n\nFor more information, try '--help'.\n",
        errors,
    )
}

/// Shows a text on the first writer, with status 0. If that fails, `fault 932` is told on the second, with status 1.
pub fn show<W: Write, E: Write>(text: &str, output: &mut W, errors: &mut E) -> Ended
    ensures { Shows text.now (record { old = W.contents output.old; new = W.contents output.new; errors_old = E.contents errors.old; errors_new = E.contents errors.new }) result }
{
    match write_text(output, text.as_bytes()) {
        Ok(()) => Ended {
            status: 0,
            told: true,
        },
        Err(_) => tell_fault(ServeFault::Write, errors),
    }
}

/// Ends a program whose words name nothing to serve: help and the version are shown on the first writer, with
/// status 0, that the words are wrong is said on the second, with status 2, and want of memory is told as
/// `fault 933`, with status 1.
pub fn end_unserved<W: Write, E: Write>(why: Unserved, output: &mut W, errors: &mut E) -> Ended
    ensures said { EndsFor why (record { old = W.contents output.old; new = W.contents output.new; errors_old = E.contents errors.old; errors_new = E.contents errors.new }) result }
    ensures kinds { (kinds : Kinds) → IsUnserved kinds why → EndsUnserved kinds (record { old = W.contents output.old; new = W.contents output.new; errors_old = E.contents errors.old; errors_new = E.contents errors.new }) result }
{
    match why {
        Unserved::NoMemory => tell_fault(ServeFault::Memory, errors),
        Unserved::Help(text) => show(text.as_str(), output, errors),
        Unserved::Wrong(text) => say(2, text.as_str(), errors),
    }
}

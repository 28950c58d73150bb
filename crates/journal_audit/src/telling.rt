// The line of a verdict, made and written without asking for memory.

ghost use Rattle.std.specs.Prelude.{◌≡◌, ◌+◌, ◌≤◌, ◌++◌, IfErr, decimal};
ghost use Rattle.arrayvec.specs.ArrayString.{array_string_len};
ghost use Rattle.line_streams.specs.Streams.{Puts};
ghost use Rattle.journal_audit.specs.Verdicts.{verdict_text, cause_text};

use crate::{AuditFault, Cause, Verdict};
use arrayvec::ArrayString;
use itoa::Buffer;
use line_streams::write_text;
use std::io::Write;

/// The most bytes of a verdict's line.
const LINE_ROOM: usize = 40;

/// Adds a number.
fn push_number(line: &mut ArrayString<LINE_ROOM>, number: u32)
    requires { array_string_len line.old + 10 ≤ 40 }
    ensures text { line.new.bytes ≡ line.old.bytes ++ decimal number }
    ensures few { array_string_len line.new ≤ array_string_len line.old + 10 }
{
    let mut digits = Buffer::new();
    line.push_str(digits.format(number));
}

/// Adds what is wrong with a line.
fn push_cause(line: &mut ArrayString<LINE_ROOM>, cause: Cause)
    requires { array_string_len line.old + 19 ≤ 40 }
    ensures text { line.new.bytes ≡ line.old.bytes ++ cause_text cause }
    ensures few { array_string_len line.new ≤ array_string_len line.old + 19 }
{
    match cause {
        Cause::Line(fault) => {
            line.push_str(" fault ");
            push_number(line, u32::from(fault.number()));
        }
        Cause::Refused(fault) => {
            line.push_str(" refused ");
            push_number(line, u32::from(fault.number()));
        }
    }
}

/// The line of a verdict.
fn verdict_line(verdict: Verdict) -> ArrayString<LINE_ROOM>
    ensures { result.bytes ≡ verdict_text verdict }
{
    let mut line = ArrayString::new();
    match verdict {
        Verdict::Sound(count) => {
            line.push_str("sound ");
            push_number(&mut line, count);
        }
        Verdict::Unsound(number, cause) => {
            line.push_str("unsound ");
            push_number(&mut line, number);
            push_cause(&mut line, cause);
        }
    }
    line.push_str("\n");
    line
}

/// Writes the line of a verdict at once, as `audit` does: `sound N`, `unsound L fault N` or
/// `unsound L refused N`. It asks for no memory.
///
/// # Errors
///
/// `Write` (817). Then a beginning of the line was written, and not all.
pub fn tell_verdict<W: Write>(verdict: Verdict, writer: &mut W) -> Result<(), AuditFault>
    ensures text { Puts (W.contents writer.old) (W.contents writer.new) (verdict_text verdict) result }
    ensures fault { IfErr result (λ e. e ≡ AuditFault.Write) }
{
    let line = verdict_line(verdict);
    if write_text(writer, line.as_str().as_bytes()).is_err() {
        return Err(AuditFault::Write);
    }
    Ok(())
}

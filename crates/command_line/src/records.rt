// What a record's file holds, for `rwvote record`.

ghost use Rattle.std.specs.Prelude.{◌≡◌};
ghost use Rattle.command_line.specs.CommandLine.{ShowsWith, LooksAtFile, look_text, status_for};

use file_plate::FileFault;
use line_streams::write_text;
use operator_cli::ServeFault;
use program_ends::{Ended, say, tell_fault};
use record_view::{Verdict, look_at};
use std::alloc::Global;
use std::fs::{File, Files};
use std::io::Write;

/// Shows a text with this status. If that fails, it says so as `fault 932`, with status 1.
fn show_with<W: Write, E: Write>(status: u8, text: &str, output: &mut W, errors: &mut E) -> Ended
    ensures { ShowsWith status text.now (record { old = W.contents output.old; new = W.contents output.new; errors_old = E.contents errors.old; errors_new = E.contents errors.new }) result }
{
    match write_text(output, text.as_bytes()) {
        Ok(()) => Ended { status, told: true },
        Err(_) => tell_fault(ServeFault::Write, errors),
    }
}

/// The status of a file that was read: 0 if it would open as a record.
fn status_for(verdict: Verdict) -> u8
    ensures { result ≡ status_for verdict }
{
    match verdict {
        Verdict::Opens => 0,
        Verdict::NotWritable | Verdict::WrongSize | Verdict::NoRecord => 1,
    }
}

/// What is said of a file that can't be read.
fn look_text(fault: FileFault) -> &'static str
    ensures { result.now ≡ look_text fault }
{
    match fault {
        FileFault::Missing => "fault 942: there is no such file\n",
        _ => "fault 945: the file can't be read, or is not a regular file\n",
    }
}

/// Prints what a record's file holds, with status 0 if it would open as a record, and 1 if not. A file that can't be
/// read is said on the second writer, with status 2.
#[tactic(auto, using(crate::proofs::RecordFacts::shows_report, crate::proofs::RecordFacts::refuses_file, crate::proofs::RecordFacts::lacks_memory))]
pub(crate) fn show_record<F: Files<File = File>, W: Write, E: Write>(
    files: &F,
    alloc: Global,
    path: &str,
    output: &mut W,
    errors: &mut E,
) -> Ended
    ensures { LooksAtFile (record { old = W.contents output.old; new = W.contents output.new; errors_old = E.contents errors.old; errors_new = E.contents errors.new }) result }
{
    match look_at(files, alloc, path) {
        Ok(report) => show_with(
            status_for(report.verdict),
            report.text.as_str(),
            output,
            errors,
        ),
        Err(FileFault::Memory) => tell_fault(ServeFault::Memory, errors),
        Err(fault) => say(2, look_text(fault), errors),
    }
}

// What is said of a file, and whether it would be opened as a record.

ghost use Rattle.std.specs.Prelude.{◌≡◌, IfOk, IfErr, string_bytes};
ghost use Rattle.record_view.specs.Views.{IsSize, IsWhole, Knows, IsLookFault, verdict_on};
ghost use Rattle.record_view.specs.Texts.{SaysContent, Reports, IsReport, verdict_text};

use crate::files::{SeenFile, read_file};
use crate::{RecordView, view};
use file_plate::FileFault;
use rotating_record::ROTATING_PLATE_LEN;
use slot_record::LEAST_PLATE_LEN;
use std::alloc::{AllocError, Global};
use std::fs::{File, Files};

/// Whether a file would be opened as a record, if no other process has it open.
#[derive(Clone, Copy, Debug, PartialEq, Eq)]
pub enum Verdict {
    /// It would.
    Opens,
    /// Opening would fail with 945: the file can't be opened for writing.
    NotWritable,
    /// Opening would fail with 943: the file hasn't the size of three slots.
    WrongSize,
    /// Opening would fail with 944: no slot has a record.
    NoRecord,
}

/// What is said of a file.
#[derive(Drop)]
pub struct Report {
    /// The lines: the size, the slots, the record that is found, and the verdict.
    pub text: String,
    /// Whether the file would be opened.
    pub verdict: Verdict,
}

fn verdict_word(verdict: Verdict) -> &'static str
    ensures { result.now ≡ verdict_text verdict }
{
    match verdict {
        Verdict::Opens => "would open\n",
        Verdict::NotWritable => {
            "would not open: fault 945: the file can't be opened for writing\n"
        }
        Verdict::WrongSize => {
            "would not open: fault 943: a record has three slots, and 200704 bytes\n"
        }
        Verdict::NoRecord => "would not open: fault 944: no slot has a record\n",
    }
}

/// The lines of a file with two slots or three, and whether they have a record.
fn viewed(alloc: Global, file: &SeenFile) -> Result<(String, bool), AllocError>
    requires whole { IsWhole file.now }
    requires sized { IsSize file.now.size }
    ensures says { IfOk result (λ c. SaysContent file.now (string_bytes c.0)) }
    ensures found { IfOk result (λ c. Knows file.now c.1) }
{
    match view(alloc, &file.bytes) {
        Ok(seen) => {
            let RecordView { body, text } = seen;
            Ok((text, body.is_some()))
        }
        Err(_) => Err(AllocError),
    }
}

/// The lines of a file's content, and whether its slots have a record.
fn content_of(alloc: Global, file: &SeenFile) -> Result<(String, bool), AllocError>
    requires { IsWhole file.now }
    ensures says { IfOk result (λ c. SaysContent file.now (string_bytes c.0)) }
    ensures found { IfOk result (λ c. Knows file.now c.1) }
{
    let size = file.size;
    if size == u64::from(LEAST_PLATE_LEN) {
        return viewed(alloc, file);
    }
    if size == u64::from(ROTATING_PLATE_LEN) {
        return viewed(alloc, file);
    }
    let text = format!(in alloc; "{size} bytes\n")?;
    Ok((text, false))
}

/// The verdict on a file, by whether its slots have a record.
fn verdict_of(file: &SeenFile, has_record: bool) -> Verdict
    requires { Knows file.now has_record }
    ensures { result ≡ verdict_on file.now }
{
    if !file.writable {
        return Verdict::NotWritable;
    }
    if file.size != u64::from(ROTATING_PLATE_LEN) {
        return Verdict::WrongSize;
    }
    if has_record {
        Verdict::Opens
    } else {
        Verdict::NoRecord
    }
}

/// What is said of a file that was read.
fn report_of(alloc: Global, file: &SeenFile) -> Result<Report, AllocError>
    requires { IsWhole file.now }
    ensures { IfOk result (λ r. Reports file.now r) }
{
    let (mut text, has_record) = content_of(alloc, file)?;
    let verdict = verdict_of(file, has_record);
    text.push_str(verdict_word(verdict))?;
    Ok(Report { text, verdict })
}

/// Reads a file, and says what it holds and whether it would be opened as a record. It writes nothing and
/// takes no lock, so it doesn't see whether another process has the file open.
///
/// It returns 942 (there is no such file), 945 (it can't be read, or is no regular file) or 933 (out of
/// memory).
pub fn look_at<R: Files<File = File>>(
    files: &R,
    alloc: Global,
    path: &str,
) -> Result<Report, FileFault>
    // Some file was read to its end, and this is said of it.
    ensures reports { IfOk result (λ r. IsReport r) }
    // It returns no other fault.
    ensures faults { IfErr result (λ fault. IsLookFault fault) }
{
    let file = read_file(files, alloc, path)?;
    match report_of(alloc, &file) {
        Ok(report) => Ok(report),
        Err(_) => Err(FileFault::Memory),
    }
}

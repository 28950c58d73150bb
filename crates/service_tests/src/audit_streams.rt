// Readers that give little, fail in the middle or bring too much, and a writer that takes nothing.

use crate::auditing::{audited, found, world};
use crate::sips::sips_of;
use event_lines::{LineFault, read_event};
use journal_audit::{AuditFault, Cause, Verdict, audit, audit_lines};
use line_streams::LineReader;
use std::alloc::Global;
use std::io;
use std::io::Read;
use test_outcomes::{Failure, Outcome, check, check_row};
use test_support::Full;
use world_model::StepFault;

/// A reader asks two nodes, hears two grants and enters.
const FIRST_READER: &str = "\
rise n1 old\nrise n2 old\nrise n3 old\nrise c1 old\nrise c2 old\nrise c3 old\nrise c4 old\n\
begin c1 read a\ntry c1\nkept c1\nsayto c1 n1\ntake n1 1\ntry n1\nkept n1\nsay n1\nhear c1 2\n\
sayto c1 n2\ntake n2 3\ntry n2\nkept n2\nsay n2\nhear c1 4\nenter c1\n";

const UNSOUND: &str = "rise c1 old\nbegin c1 read a\nenter c1\n";

#[test]
fn pieces_of_any_size(rt: HostRuntime) -> Outcome {
    for most in [1, 2, 7, 4_096] {
        let out = audited(rt.alloc(), sips_of(FIRST_READER.as_bytes(), most, u32::MAX))?;
        check_row(out.as_slice() == b"sound 23\n".as_slice(), most)?;
    }
    Ok(())
}

/// A reader that gives so many bytes of the unsound journal, one a read, and then fails: before the
/// end of the unsound line that is told, and behind it it was never asked.
fn fails_behind(alloc: Global, bytes: u32) -> Outcome {
    let world = world(alloc)?;
    let mut out = Vec::new(alloc);
    let found = audit(
        alloc,
        world,
        sips_of(UNSOUND.as_bytes(), 1, bytes),
        &mut out,
    );
    if matches!(found, Err(AuditFault::Memory | AuditFault::Write)) {
        return Err(Failure::Memory);
    }
    if (bytes as usize) < UNSOUND.len() {
        return check(found == Err(AuditFault::Read) && out.is_empty());
    }
    check(found == Ok(Verdict::Unsound(3, Cause::Refused(StepFault::WrongPhase))))?;
    check(out.as_slice() == b"unsound 3 refused 604\n".as_slice())
}

#[test]
fn failing_reader(rt: HostRuntime) -> Outcome {
    for bytes in 0..38 {
        fails_behind(rt.alloc(), bytes)?;
    }
    Ok(())
}

/// A reader of many more bytes than an audit reads at once, which counts how often it is asked.
#[derive(Drop)]
struct Counts<'a> {
    first: &'a [u8],
    calls: &'a mut u32,
}

impl Read for Counts<'_> {
    fn read(&mut self, buf: &mut [u8]) -> io::Result<usize> {
        *self.calls = self.calls.saturating_add(1);
        let count = self.first.len().min(buf.len());
        if count == 0 {
            // an empty line is no event
            buf.fill(b'\n');
            return Ok(buf.len());
        }
        let (now, later) = self.first.split_at(count);
        buf[..count].copy_from_slice(now);
        self.first = later;
        Ok(count)
    }
}

/// Behind the answer that brought an unsound line the reader isn't asked again.
#[test]
fn reads_no_further(rt: HostRuntime) -> Outcome {
    let world = world(rt.alloc())?;
    let mut calls = 0;
    let reader = Counts {
        first: UNSOUND.as_bytes(),
        calls: &mut calls,
    };
    let mut out = Vec::new(rt.alloc());
    match audit(rt.alloc(), world, reader, &mut out) {
        Err(AuditFault::Memory | AuditFault::Write) => Err(Failure::Memory),
        found => {
            check(found == Ok(Verdict::Unsound(3, Cause::Refused(StepFault::WrongPhase))))?;
            check(calls == 1)
        }
    }
}

#[test]
fn full_writer(rt: HostRuntime) -> Outcome {
    let world = world(rt.alloc())?;
    match audit(rt.alloc(), world, UNSOUND.as_bytes(), &mut Full) {
        Err(AuditFault::Memory) => Err(Failure::Memory),
        found => check(found == Err(AuditFault::Write)),
    }
}

/// The lines behind a first one that was read before.
#[test]
fn lines_behind_a_head(rt: HostRuntime) -> Outcome {
    let world = world(rt.alloc())?;
    let mut source = LineReader::new(b"head\nrise c1 old\nfall c1".as_slice(), 100);
    let mut line = Vec::new(rt.alloc());
    if source.read_line(&mut line, 4).is_err() {
        return Err(Failure::Memory);
    }
    let mut out = Vec::new(rt.alloc());
    match audit_lines(rt.alloc(), world, &mut source, &mut out) {
        Err(AuditFault::Memory | AuditFault::Write) => Err(Failure::Memory),
        found => check(found == Ok(Verdict::Sound(2))),
    }
}

/// The number of the fault of the last line, where that is no event.
fn last_fault(lines: &[u8]) -> Option<u16> {
    let lines = str::from_utf8(lines).ok()?;
    let mut number = None;
    for line in lines.lines() {
        number = match read_event(line.as_bytes()) {
            Ok(_) => None,
            Err(fault) => Some(fault.number()),
        };
    }
    number
}

/// Whether the verdict on a journal that was cut is right: the whole lines are sound, and what is left
/// of the next one is no line, the whole of it, or no event, by its own fault.
fn is_right_cut(alloc: Global, out: &[u8], cut: usize) -> Result<bool, Failure> {
    let bytes = FIRST_READER.as_bytes();
    let (now, later) = bytes.split_at_checked(cut).ok_or(Failure::Wrong(0))?;
    let lines = now.iter().filter(|byte| **byte == b'\n').count();
    let (lines, next) = (lines, lines.saturating_add(1));
    let expected = if now.is_empty() || now.ends_with(b"\n") {
        format!(in alloc; "sound {lines}\n")?
    } else if later.starts_with(b"\n") {
        format!(in alloc; "sound {next}\n")?
    } else {
        let number = last_fault(now).ok_or(Failure::Wrong(0))?;
        format!(in alloc; "unsound {next} fault {number}\n")?
    };
    Ok(out == expected.as_bytes())
}

#[test]
fn cut_journal(rt: HostRuntime) -> Outcome {
    for cut in 0..FIRST_READER.len() {
        let (now, _) = FIRST_READER
            .as_bytes()
            .split_at_checked(cut)
            .ok_or(Failure::Wrong(0))?;
        let out = audited(rt.alloc(), now)?;
        let right = is_right_cut(rt.alloc(), out.as_slice(), cut)?;
        check_row(right, cut)?;
    }
    Ok(())
}

/// A reader that gives two lines in turn, so many lines in all, and a line a read.
#[derive(Drop)]
struct Turns {
    lines: u32,
    rises: bool,
}

impl Read for Turns {
    fn read(&mut self, buf: &mut [u8]) -> io::Result<usize> {
        if self.lines == 0 {
            return Ok(0);
        }
        self.lines -= 1;
        self.rises = !self.rises;
        let line: &[u8] = if self.rises {
            b"rise c1 old\n"
        } else {
            b"fall c1\n"
        };
        let count = line.len().min(buf.len());
        buf[..count].copy_from_slice(&line[..count]);
        Ok(count)
    }
}

/// Ends the test unless a journal of so many lines, each of which may happen, is found so.
fn is_found(alloc: Global, lines: u32, expected: Result<Verdict, AuditFault>) -> Outcome {
    let turns = Turns {
        lines,
        rises: false,
    };
    let found = found(alloc, turns)?;
    check_row(found == expected, lines as usize)
}

#[test]
fn as_many_lines_as_may_be(rt: HostRuntime) -> Outcome {
    is_found(rt.alloc(), 4_194_304, Ok(Verdict::Sound(4_194_304)))
}

#[test]
fn too_many_lines(rt: HostRuntime) -> Outcome {
    is_found(rt.alloc(), 4_194_305, Err(AuditFault::TooManyLines))
}

/// A line of 130 bytes, one a read: byte 129 ends the audit, and no more is read.
#[test]
fn long_line(rt: HostRuntime) -> Outcome {
    let long = "\
        0123456789012345678901234567890123456789012345678901234567890123456789\
        012345678901234567890123456789012345678901234567890123456789";
    let words = Cause::Line(LineFault::Words);
    let cut = found(rt.alloc(), sips_of(long.as_bytes(), 1, 128))?;
    check_row(cut == Err(AuditFault::Read), 128)?;
    let whole = found(rt.alloc(), sips_of(long.as_bytes(), 1, 129))?;
    check_row(whole == Ok(Verdict::Unsound(1, words)), 129)
}

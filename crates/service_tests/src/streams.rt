// Readers that give little, inputs that are cut, and readers and writers that fail.

use crate::playing::{serve_script, serves_reader};
use crate::sips::sips_of;
use operator_cli::ServeFault;
use std::alloc::Global;
use std::io;
use std::io::{Error, ErrorKind, Write};
use test_outcomes::{Failure, Outcome, check, check_row};

const SCRIPT: &str = "\
votes = [1, 1, 1]\nread = 2\nwrite = 2\nproblem = 1\nclients = 4\n---\n\
begin c1 read a\ntry c1\nkept c1\nsayto c1 n1\ntake n1 1\ntry n1\n\
kept n1\nsay n1\nhear c1 2\nenter c1\ninside a\n";

const EXPECTED: &str = "\
chose 1\ntried\nkept\nsent 1 request n1 c1 1 read a\nchanged\ntried\n\
kept\nsent 2 grant n1 c1 1 read a\ncounted\nrefused 609\ninside a: nobody\n";

/// Where the lines behind the settings begin.
const BODY: usize = 65;

/// Runs the script by reads of so many bytes at most.
fn plays_pieces(alloc: Global, most: usize) -> Outcome {
    let mut out = Vec::new(alloc);
    let reader = sips_of(SCRIPT.as_bytes(), most, u32::MAX);
    let status = serves_reader(alloc, reader, &mut out)?;
    check_row(out.as_slice() == EXPECTED.as_bytes() && status == 1, most)
}

const SIZES: [usize; 5] = [1, 2, 7, 64, 4_096];

#[test]
fn pieces_of_any_size(rt: HostRuntime) -> Outcome {
    for most in &SIZES {
        plays_pieces(rt.alloc(), *most)?;
    }
    Ok(())
}

/// The script has so many bytes that so many reads of 7 give them, and one more tells the end.
const READS: u32 = 24;

/// A reader that fails after so many reads.
fn fails_to_read(alloc: Global, reads: u32) -> Outcome {
    let mut out = Vec::new(alloc);
    let reader = sips_of(SCRIPT.as_bytes(), 7, reads);
    match serve_script(alloc, reader, &mut out) {
        Err(ServeFault::Memory | ServeFault::Write) => Err(Failure::Memory),
        Err(ServeFault::Read) => { check(reads <= READS && EXPECTED.as_bytes().starts_with(&out)) }
        Err(ServeFault::Audit(_)) => Err(Failure::Wrong(0)),
        Ok(2) => Err(Failure::Memory),
        Ok(_) => check(reads > READS),
    }
}

#[test]
fn failing_reader(rt: HostRuntime) -> Outcome {
    for reads in 0..40 {
        fails_to_read(rt.alloc(), reads)?;
    }
    Ok(())
}

/// A writer that takes at most so many bytes a write, and fails after so many writes.
#[derive(Drop)]
struct Sinks {
    taken: Vec<u8>,
    most: usize,
    writes: u32,
}

impl Write for Sinks {
    fn write(&mut self, buf: &[u8]) -> io::Result<usize> {
        if self.writes == 0 {
            return Err(Error::from(ErrorKind::BrokenPipe));
        }
        self.writes -= 1;
        let (now, _) = buf.split_at(self.most.min(buf.len()));
        match self.taken.extend_from_slice(now) {
            Ok(()) => Ok(now.len()),
            Err(_) => Err(Error::from(ErrorKind::OutOfMemory)),
        }
    }

    fn flush(&mut self) -> io::Result<()> {
        Ok(())
    }
}

/// Whether a writer took all, or as it should a beginning, and it ended so.
fn took(taken: &[u8], ended: Result<u8, ServeFault>, all: bool) -> Outcome {
    if ended == Err(ServeFault::Memory) || ended == Ok(2) {
        return Err(Failure::Memory);
    }
    let wanted = if all { Ok(1) } else { Err(ServeFault::Write) };
    let whole = taken.len() == EXPECTED.len();
    check(EXPECTED.as_bytes().starts_with(taken) && whole == all && ended == wanted)
}

/// Runs the script into a writer that should take all, or a beginning alone.
fn writes(alloc: Global, most: usize, writes: u32, all: bool) -> Outcome {
    let mut out = Sinks {
        taken: Vec::new(alloc),
        most,
        writes,
    };
    let ended = serve_script(alloc, SCRIPT.as_bytes(), &mut out);
    took(out.taken.as_slice(), ended, all)
}

/// So many writes of five bytes are enough for the output, and fewer are not.
#[test]
fn failing_writer(rt: HostRuntime) -> Outcome {
    for count in 0..20 {
        writes(rt.alloc(), 5, count, false)?;
    }
    writes(rt.alloc(), 5, 100, true)
}

#[test]
fn full_writer(rt: HostRuntime) -> Outcome {
    writes(rt.alloc(), 0, u32::MAX, false)
}

/// How many whole lines the bytes have.
fn lines_in(bytes: &[u8]) -> usize {
    bytes.iter().filter(|byte| **byte == b'\n').count()
}

/// What is left of the text behind so many lines.
fn behind_lines(text: &[u8], lines: usize) -> &[u8] {
    let mut rest = text;
    for _ in 0..lines {
        if let Some(at) = rest.iter().position(|byte| *byte == b'\n') {
            rest = &rest[at + 1..];
        }
    }
    rest
}

/// Whether a rest of the output is what a beginning of a line leads to: nothing where there is none,
/// the answer where the line is whole, else one bad line.
fn is_right_rest(rest: &[u8], answers: &[u8], none: bool, whole: bool) -> bool {
    if none {
        rest.is_empty()
    } else if whole {
        answers.starts_with(rest) && lines_in(rest) == 1
    } else {
        rest.starts_with(b"line ") && lines_in(rest) == 1
    }
}

/// Whether a script that is cut here behind its settings printed this: the whole lines answer as before, and
/// what is left of the next one is a line, a bad line or none.
fn is_right_cut(out: &[u8], now: &[u8], later: &[u8]) -> bool {
    let Some((_, lines)) = now.split_at_checked(BODY) else {
        return false;
    };
    let expected = EXPECTED.as_bytes();
    let answers = behind_lines(expected, lines_in(lines));
    let same = expected.len().saturating_sub(answers.len());
    let Some((begun, rest)) = out.split_at_checked(same) else {
        return false;
    };
    let (none, whole) = (now.ends_with(b"\n"), later.starts_with(b"\n"));
    expected.starts_with(begun) && is_right_rest(rest, answers, none, whole)
}

fn plays_cut(alloc: Global, cut: usize) -> Outcome {
    let halves = SCRIPT.as_bytes().split_at_checked(cut);
    let (now, later) = halves.ok_or(Failure::Wrong(cut))?;
    let mut out = Vec::new(alloc);
    serves_reader(alloc, now, &mut out)?;
    check_row(is_right_cut(&out, now, later), cut)
}

#[test]
fn cut_lines(rt: HostRuntime) -> Outcome {
    for cut in BODY..SCRIPT.len() + 1 {
        plays_cut(rt.alloc(), cut)?;
    }
    Ok(())
}

/// Runs settings that are cut here.
fn refuses_cut(alloc: Global, cut: usize) -> Outcome {
    let settings = SCRIPT.as_bytes().get(..cut).ok_or(Failure::Wrong(cut))?;
    let mut out = Vec::new(alloc);
    let status = serves_reader(alloc, settings, &mut out)?;
    let refused = out.as_slice() == b"settings fault 924\n".as_slice();
    check_row(refused && status == 2, cut)
}

/// Settings that are cut before their end; the last line feed may be missing.
#[test]
fn cut_settings(rt: HostRuntime) -> Outcome {
    for cut in 0..BODY - 1 {
        refuses_cut(rt.alloc(), cut)?;
    }
    Ok(())
}

//! Lines over streams: how they are cut, which are lost, and what is written.

ghost use Rattle.std.specs.Prelude.{None};

use crate::links::{brings, link};
use crate::places::{client, line_for_node, node, secret};
use crate::repeats::ends;
use crossbeam_channel::Receiver;
use line_link::{Carrier, MAX_LINE_LEN, MAX_WAITING, Streams, Taken, line_channel, read_lines};
use std::alloc::Global;
use std::io::{self, ErrorKind, Read, Write};
use std::mem::drop;
use std::sync::Wait;
use std::sync::atomic::AtomicU64;
use std::sync::atomic::Ordering::SeqCst;
use std::time::Clock;
use test_outcomes::{Failure, Outcome, check_row};

/// A writer that counts what it is asked, and may fail.
#[derive(Drop)]
struct Tally<'a> {
    bytes: &'a AtomicU64,
    flushes: &'a AtomicU64,
    fails: bool,
}

impl Write for Tally<'_> {
    ghost contents = { λ _. None };

    fn write(&mut self, buf: &[u8]) -> io::Result<usize> {
        if self.fails {
            return Err(io::Error::from(ErrorKind::BrokenPipe));
        }
        self.bytes.fetch_add(buf.len() as u64, SeqCst);
        Ok(buf.len())
    }

    fn flush(&mut self) -> io::Result<()> {
        self.flushes.fetch_add(1, SeqCst);
        Ok(())
    }
}

/// Each line is written and flushed. A write that fails loses the line, and it is known afterwards.
fn writes<W: Wait + Copy>(wait: W, alloc: Global, fails: bool) -> Outcome {
    let (bytes, flushes) = (AtomicU64::new(0), AtomicU64::new(0));
    let (_sender, lines) = line_channel(alloc)?;
    let writer = Tally {
        bytes: &bytes,
        flushes: &flushes,
        fails,
    };
    let mut streams = Streams::new(wait, writer, lines);
    check_row(!streams.has_failed(), 1)?;
    streams.put(node(), b"a line\n");
    streams.put(client(), b"b\n");
    check_row(streams.has_failed() == fails, 2)?;
    let (all, count) = if fails { (0, 0) } else { (9, 2) };
    check_row(
        bytes.load(SeqCst) == all && flushes.load(SeqCst) == count,
        3,
    )
}

#[test]
fn lines_are_written(rt: HostRuntime) -> Outcome {
    writes(rt, rt.alloc(), false)
}

#[test]
fn a_broken_pipe(rt: HostRuntime) -> Outcome {
    writes(rt, rt.alloc(), true)
}

/// A reader that gives one byte at a time, and is interrupted before each.
#[derive(Drop)]
struct Drips<'a> {
    rest: &'a [u8],
    is_interrupted: bool,
}

impl Read for Drips<'_> {
    fn read(&mut self, buf: &mut [u8]) -> io::Result<usize> {
        self.is_interrupted = !self.is_interrupted;
        if self.is_interrupted {
            return Err(io::Error::from(ErrorKind::Interrupted));
        }
        let (Some(to), Some((byte, rest))) = (buf.first_mut(), self.rest.split_first()) else {
            return Ok(0);
        };
        *to = *byte;
        self.rest = rest;
        Ok(1)
    }
}

/// What a reader gives, as lines in a channel that is closed.
fn lines_of<W: Wait, I: Read>(
    wait: &W,
    alloc: Global,
    input: &mut I,
) -> Result<Receiver<Vec<u8>>, Failure> {
    let (sender, lines) = line_channel(alloc)?;
    read_lines(wait, alloc, input, &sender);
    drop(sender);
    Ok(lines)
}

/// Whether the next line is this one.
fn next_is<W: Wait>(wait: &W, lines: &Receiver<Vec<u8>>, want: &[u8], row: usize) -> Outcome {
    match lines.try_recv(wait) {
        Ok(line) => check_row(line.as_slice() == want, row),
        Err(_) => Err(Failure::NoAnswer(row)),
    }
}

/// Lines are cut at line feeds, however they come. What has no line feed at the end of the input is no line.
fn cuts<W: Wait>(wait: &W, alloc: Global) -> Outcome {
    let mut input = Drips {
        rest: b"one\n\nthree\nhalf",
        is_interrupted: false,
    };
    let lines = lines_of(wait, alloc, &mut input)?;
    next_is(wait, &lines, b"one", 1)?;
    next_is(wait, &lines, b"", 2)?;
    next_is(wait, &lines, b"three", 3)?;
    check_row(lines.try_recv(wait).is_err(), 4)
}

#[test]
fn lines_are_cut(rt: HostRuntime) -> Outcome {
    cuts(&rt, rt.alloc())
}

/// The longest line is whole, and a longer one is empty, also one of 10 MB.
fn cuts_long<W: Wait>(wait: &W, alloc: Global) -> Outcome {
    for (size, row) in [(MAX_LINE_LEN, 1), (MAX_LINE_LEN + 1, 2), (10_000_000, 3)] {
        let mut text = Vec::new(alloc);
        text.resize(size, b'x')?;
        text.extend_from_slice(b"\nnext\n")?;
        let lines = lines_of(wait, alloc, &mut text.as_slice())?;
        let kept = if size > MAX_LINE_LEN { 0 } else { size };
        next_is(wait, &lines, text.get(..kept).unwrap_or(b""), row)?;
        next_is(wait, &lines, b"next", 4)?;
    }
    Ok(())
}

#[test]
fn long_lines(rt: HostRuntime) -> Outcome {
    cuts_long(&rt, rt.alloc())
}

/// Lines for which there is no room are lost, and the first ones come.
fn fills<W: Wait>(wait: &W, alloc: Global) -> Outcome {
    let mut text = Vec::new(alloc);
    text.extend_from_slice(b"first\n")?;
    text.resize(3 * MAX_WAITING, b'\n')?;
    let lines = lines_of(wait, alloc, &mut text.as_slice())?;
    check_row(lines.len() == MAX_WAITING, 1)?;
    next_is(wait, &lines, b"first", 2)
}

#[test]
fn a_full_channel(rt: HostRuntime) -> Outcome {
    fills(&rt, rt.alloc())
}

/// A link over streams drops what is no line for its actor, and is closed after the last line.
fn is_closed<W: Wait + Clock + Copy>(wait: W, alloc: Global) -> Outcome {
    let mut text = Vec::new(alloc);
    let good = line_for_node(alloc, &secret(), b"good")?;
    text.extend_from_slice(b"noise\n")?;
    text.extend_from_slice(good.as_bytes())?;
    text.extend_from_slice(good.as_bytes().get(..20).unwrap_or(b""))?;
    let lines = lines_of(&wait, alloc, &mut text.as_slice())?;
    let streams = Streams::new(wait, io::sink(), lines);
    let mut own = link(wait, alloc, node(), streams, None);
    brings(&mut own, b"good", 1)?;
    ends(&mut own, 2)?;
    check_row(own.dropped() == 1, 3)?;
    ends(&mut own, 4)
}

#[test]
fn the_end_of_the_input(rt: HostRuntime) -> Outcome {
    is_closed(rt, rt.alloc())
}

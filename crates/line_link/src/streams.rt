// Lines over two streams, as pipes: what is put goes to a writer, and a thread reads what comes.

ghost use Rattle.std.specs.Prelude.{◌≡◌, false, None, OnOk};
ghost use Rattle.std.specs.Io.KnownBytes.{Appends};
ghost use Rattle.line_link.specs.Carried.{WritesLine};

use crate::carriers::{Carrier, Taken};
use crate::held_lines::HeldLines;
use crossbeam_channel::{Receiver, Sender, TryRecvError, TrySendError, bounded};
use lock_messages::Actor;
use std::alloc::{AllocError, Global};
use std::io::{self, ErrorKind, Read, Write};
use std::marker::Model;
use std::sync::Wait;

/// How many lines wait between the thread that reads and the link. A further one is lost.
pub const MAX_WAITING: usize = 4_096;

/// How many bytes are read at once.
const BLOCK_LEN: usize = 16_384;

/// The ends between the thread that reads lines and a link over them. The only error is running out of memory.
pub fn line_channel(alloc: Global) -> Result<(Sender<Vec<u8>>, Receiver<Vec<u8>>), AllocError> {
    bounded(alloc, MAX_WAITING)
}

/// Sends a line without waiting. It returns whether lines are still taken. If there is no room the line is lost.
fn pass_on<R: Wait>(rt: &R, sender: &Sender<Vec<u8>>, line: Vec<u8>) -> bool {
    !matches!(
        sender.try_send(rt, line),
        Err(TrySendError::Disconnected(_))
    )
}

/// Sends the lines that are held. It returns whether lines are still taken.
fn pass_held<R: Wait>(
    rt: &R,
    alloc: Global,
    held: &mut HeldLines,
    sender: &Sender<Vec<u8>>,
) -> bool {
    for _ in 0..BLOCK_LEN {
        let mut line = Vec::new(alloc);
        if !held.next(&mut line) {
            return true;
        }
        if !pass_on(rt, sender, line) {
            return false;
        }
    }
    true
}

/// Reads lines and passes them on, until the input ends or fails, or nobody takes them. It runs in a thread of its own.
///
/// A line that is longer than `MAX_LINE_LEN` is passed on as an empty one. A line for which there is no room or no memory
/// is lost.
pub fn read_lines<R: Wait, I: Read>(
    rt: &R,
    alloc: Global,
    input: &mut I,
    sender: &Sender<Vec<u8>>,
) {
    let mut held = HeldLines::new(alloc);
    for _ in rt.forever() {
        let mut block = [0; BLOCK_LEN];
        match input.read(&mut block) {
            Ok(0) => return,
            Ok(count) => held.add(&block[..count]),
            Err(error) if error.kind() == ErrorKind::Interrupted => {}
            Err(_) => return,
        }
        if !pass_held(rt, alloc, &mut held, sender) {
            return;
        }
    }
}

/// A carrier over a writer and the lines that a thread reads.
///
/// Contracts see what the writer holds, if that is known, and whether a write has failed.
#[derive(Drop)]
pub struct Streams<R: Wait + Copy, W: Write + Drop> {
    rt: R,
    writer: W,
    lines: Receiver<Vec<u8>>,
    has_failed: bool,
}

impl<R: Wait + Copy, W: Write + Drop> Model for Streams<R, W> {
    ghost use Rattle.line_link.specs.Carried.{Outflow};

    ghost Value = { Outflow };

    ghost view = { λ s. record { text = W.contents s.writer; failed = s.has_failed } };
}

/// Writes a line and flushes it.
fn write_line<W: Write>(writer: &mut W, line: &[u8]) -> io::Result<()>
    ensures { OnOk result (Appends (W.contents writer.old) (W.contents writer.new) line.now) }
{
    writer.write_all(line)?;
    writer.flush()
}

impl<R: Wait + Copy, W: Write + Drop> Streams<R, W> {
    /// Puts lines to the writer, and takes those that come from `read_lines`. Each needs the other end of one
    /// `line_channel`.
    pub fn new(rt: R, writer: W, lines: Receiver<Vec<u8>>) -> Streams<R, W>
        ensures { result ≡ record { text = W.contents writer; failed = false } }
    {
        Streams {
            rt,
            writer,
            lines,
            has_failed: false,
        }
    }

    /// Whether a line could not be written.
    pub fn has_failed(&self) -> bool
        ensures { result ≡ self.now.failed }
    {
        self.has_failed
    }
}

impl<R: Wait + Copy, W: Write + Drop> Carrier for Streams<R, W> {
    ghost given = { λ _. None };

    /// Writes the line and flushes it. It waits if the stream does.
    fn put(&mut self, _to: Actor, line: &[u8])
        ensures written { WritesLine self.old line.now self.new }
    {
        if write_line(&mut self.writer, line).is_err() {
            self.has_failed = true;
        }
    }

    /// Takes the next line that was read. When the input has ended and all lines are taken, it is closed.
    fn take(&mut self, line: &mut Vec<u8>) -> Taken {
        match self.lines.try_recv(&self.rt) {
            Ok(next) => {
                *line = next;
                Taken::Line
            }
            Err(TryRecvError::Empty) => Taken::Nothing,
            Err(TryRecvError::Disconnected) => Taken::Closed,
        }
    }
}

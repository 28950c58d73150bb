// A carrier of a test, and a clock that only sleeps move on.

ghost use Rattle.std.specs.Prelude.{None};

use crate::places::{client, secret};
use bytes::Bytes;
use frame_lines::write_frame;
use line_link::{Carrier, Taken};
use lock_messages::{Actor, Attempt, Message, NodeId, encode};
use lossy_link::Parcel;
use std::alloc::Global;
use std::io::{self, ErrorKind};
use std::sync::Wait;
use std::sync::atomic::Ordering::SeqCst;
use std::sync::atomic::{AtomicBool, AtomicU64};
use std::time::{Clock, Duration};
use test_outcomes::{Failure, client_id};

/// What a test's carrier notes, and the time.
#[derive(Drop)]
pub(crate) struct Notes {
    // In microseconds.
    time: AtomicU64,
    is_readable: AtomicBool,
    puts: AtomicU64,
    times: AtomicU64,
    nodes: AtomicU64,
    takes: AtomicU64,
    is_other: AtomicBool,
}

/// Several small numbers as one.
pub(crate) fn listed(numbers: &[u64]) -> u64 {
    numbers.iter().fold(0, |sum: u64, number| {
        sum.wrapping_mul(10_000).wrapping_add(*number)
    })
}

/// Adds a small number to those of `listed`.
fn add(list: &AtomicU64, number: u64) {
    let longer = list.load(SeqCst).wrapping_mul(10_000).wrapping_add(number);
    list.store(longer, SeqCst);
}

impl Notes {
    /// No time has passed, and nothing was put.
    pub(crate) fn new() -> Notes {
        Notes {
            time: AtomicU64::new(0),
            is_readable: AtomicBool::new(true),
            puts: AtomicU64::new(0),
            times: AtomicU64::new(0),
            nodes: AtomicU64::new(0),
            takes: AtomicU64::new(0),
            is_other: AtomicBool::new(false),
        }
    }

    /// The time in milliseconds, rounded down.
    pub(crate) fn millis(&self) -> u64 {
        self.time.load(SeqCst) / 1_000
    }

    /// Whether it is this time, in microseconds.
    pub(crate) fn is_at_micros(&self, micros: u64) -> bool {
        self.time.load(SeqCst) == micros
    }

    /// From now on the clock can't be read, or can again.
    pub(crate) fn let_read(&self, is_readable: bool) {
        self.is_readable.store(is_readable, SeqCst);
    }

    /// How often the carrier was asked for a line.
    pub(crate) fn takes(&self) -> u64 {
        self.takes.load(SeqCst)
    }

    /// Whether lines were put at these milliseconds, and no others. Each is below 10,000.
    pub(crate) fn has_puts_at(&self, millis: &[u64]) -> bool {
        self.puts.load(SeqCst) == millis.len() as u64 && self.times.load(SeqCst) == listed(millis)
    }

    /// Whether lines were put to these nodes, in order.
    pub(crate) fn has_puts_to(&self, nodes: &[u64]) -> bool {
        self.puts.load(SeqCst) == nodes.len() as u64 && self.nodes.load(SeqCst) == listed(nodes)
    }

    /// Whether another line was put than the first one.
    pub(crate) fn has_other(&self) -> bool {
        self.is_other.load(SeqCst)
    }

    fn put(&self, to: Actor) {
        self.puts.fetch_add(1, SeqCst);
        add(&self.times, self.millis());
        if let Actor::Node(node) = to {
            add(&self.nodes, u64::from(node.get()));
        }
    }
}

/// A clock that only sleeps move on, and the leave to wait.
#[derive(Clone, Copy)]
pub(crate) struct Timed<'a, W: Wait + Copy> {
    pub(crate) wait: W,
    pub(crate) notes: &'a Notes,
}

impl<W: Wait + Copy> Wait for Timed<'_, W> {}

impl<W: Wait + Copy> Clock for Timed<'_, W> {
    fn monotonic(&self) -> io::Result<Duration> {
        if !self.notes.is_readable.load(SeqCst) {
            return Err(io::Error::from(ErrorKind::Unsupported));
        }
        Ok(Duration::from_micros(self.notes.time.load(SeqCst)))
    }

    fn since_1970(&self) -> io::Result<Duration> {
        self.monotonic()
    }

    fn sleep(&self, duration: Duration) {
        let micros = u64::try_from(duration.as_micros()).unwrap_or(0);
        self.notes.time.fetch_add(micros, SeqCst);
    }
}

/// A line that comes at a time, in milliseconds.
#[derive(Drop)]
pub(crate) struct Coming {
    pub(crate) at: u64,
    pub(crate) line: String,
}

/// A carrier that notes what is put, brings lines at their times, and is closed at the end.
#[derive(Drop)]
pub(crate) struct Desk<'a> {
    notes: &'a Notes,
    coming: Vec<Coming>,
    came: usize,
    // In milliseconds.
    end: u64,
    first: Vec<u8>,
}

impl<'a> Desk<'a> {
    pub(crate) fn of(alloc: Global, notes: &'a Notes, coming: Vec<Coming>, end: u64) -> Desk<'a> {
        Desk {
            notes,
            coming,
            came: 0,
            end,
            first: Vec::new(alloc),
        }
    }
}

impl Carrier for Desk<'_> {
    ghost given = { λ _. None };

    fn put(&mut self, to: Actor, line: &[u8]) {
        self.notes.put(to);
        if self.first.is_empty() {
            let _ = self.first.extend_from_slice(line);
        }
        if self.first.as_slice() != line {
            self.notes.is_other.store(true, SeqCst);
        }
    }

    fn take(&mut self, line: &mut Vec<u8>) -> Taken {
        self.notes.takes.fetch_add(1, SeqCst);
        let now = self.notes.millis();
        match self.coming.get(self.came) {
            Some(coming) if coming.at <= now => {
                line.clear();
                let _ = line.extend_from_slice(coming.line.as_bytes());
                self.came = self.came.saturating_add(1);
                Taken::Line
            }
            _ if now >= self.end => Taken::Closed,
            _ => Taken::Nothing,
        }
    }
}

/// A line for c1 with this frame, which comes at a time in milliseconds.
pub(crate) fn coming_frame(alloc: Global, at: u64, frame: &[u8]) -> Result<Coming, Failure> {
    let mut line = write_frame(alloc, &secret(), client(), frame)?;
    let _ = line.pop();
    Ok(Coming { at, line })
}

/// A line for c1 by which a node says that it took a release, at a time in milliseconds.
pub(crate) fn coming_answer(alloc: Global, at: u64, from: NodeId) -> Result<Coming, Failure> {
    let attempt = Attempt::of(1).ok_or(Failure::NoAnswer(0))?;
    let done = Message::Done(from, client_id(1), attempt);
    let frame = encode(alloc, &done).map_err(|_| Failure::Memory)?;
    coming_frame(alloc, at, frame.as_slice())
}

/// A parcel with this frame.
pub(crate) fn parcel(alloc: Global, frame: &[u8]) -> Result<Parcel, Failure> {
    Ok(Parcel {
        number: 7,
        frame: Bytes::copy_from_slice(alloc, frame)?,
    })
}

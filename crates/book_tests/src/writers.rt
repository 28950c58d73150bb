// Writers that are interrupted and that fail, under journals that are gathered once and more often.

use crate::courses::play;
use crate::journals::Journal;
use crate::scripts::Turn;
use crate::worlds::{Start, Who};
use history_book::{Book, JournalFault};
use std::alloc::Global;
use std::io;
use std::io::{Error, ErrorKind, Write};
use test_outcomes::{Failure, Outcome, check};

/// A writer that is interrupted before each write, takes so many bytes, and then fails.
#[derive(Drop)]
struct Sinks {
    left: usize,
    taken: usize,
    interrupted: bool,
}

impl Write for Sinks {
    fn write(&mut self, buf: &[u8]) -> io::Result<usize> {
        if self.interrupted {
            self.interrupted = false;
            return Err(Error::from(ErrorKind::Interrupted));
        }
        self.interrupted = true;
        let count = self.left.min(buf.len());
        if count == 0 {
            return Err(Error::from(ErrorKind::BrokenPipe));
        }
        self.left -= count;
        self.taken = self.taken.saturating_add(count);
        Ok(count)
    }

    fn flush(&mut self) -> io::Result<()> {
        Ok(())
    }
}

/// Whether a writer with so much room takes the journal of so many bytes: all of it, or what there is
/// room for, and then the fault is the writer's.
fn fits(alloc: Global, book: &Book, bytes: usize, room: usize) -> Outcome {
    let mut out = Sinks {
        left: room,
        taken: 0,
        interrupted: true,
    };
    match book.write_journal(alloc, &mut out) {
        Ok(()) => check(room >= bytes && out.taken == bytes),
        Err(JournalFault::Write) => check(room < bytes && out.taken == room),
        Err(JournalFault::Memory) => Err(Failure::Memory),
    }
}

/// Whether that is so of each of these rooms.
pub(crate) fn all_fit(alloc: Global, book: &Book, bytes: usize, rooms: &[usize]) -> Outcome {
    for room in rooms {
        fits(alloc, book, bytes, *room)?;
    }
    Ok(())
}

fn fits_or_not(alloc: Global, script: &[Turn], bytes: usize, rooms: &[usize]) -> Outcome {
    let crew = [Who::N1, Who::C1, Who::C2];
    let journal = Journal::Fits(bytes, rooms);
    play(alloc, Start::ThreeNodes, crew, script, &[], &journal)
}

#[test]
fn short_journal(rt: HostRuntime) -> Outcome {
    fits_or_not(rt.alloc(), &[Turn::Rises(2)], 40, &[0, 1, 39, 40])
}

#[test]
fn journal_of_ten_parts(rt: HostRuntime) -> Outcome {
    let rooms = [0, 1, 4_095, 4_096, 4_097, 39_999, 40_000];
    fits_or_not(rt.alloc(), &[Turn::Rises(2_000)], 40_000, &rooms)
}

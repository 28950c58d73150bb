// A writer that has room for so many bytes.

ghost use Rattle.std.specs.Prelude.{Some};

use std::alloc::{AllocError, Global};
use std::io::{Error, ErrorKind, Write};
use test_outcomes::Failure;

/// A writer that takes so many bytes and then fails, and counts how often it was asked.
#[derive(Drop)]
pub(crate) struct Room {
    pub(crate) bytes: Vec<u8>,
    pub(crate) room: usize,
    pub(crate) calls: u32,
}

impl Room {
    /// A writer that has taken nothing. It takes its memory now, and no more later.
    pub(crate) fn of(alloc: Global, room: usize) -> Result<Room, AllocError> {
        Ok(Room {
            bytes: Vec::with_capacity(alloc, room)?,
            room,
            calls: 0,
        })
    }
}

impl Write for Room {
    ghost contents = { λ r. Some r.bytes.items };

    fn write(&mut self, buf: &[u8]) -> Result<usize, Error> {
        self.calls = self.calls.saturating_add(1);
        let left = self.room.saturating_sub(self.bytes.len());
        let count = buf.len().min(left);
        if count == 0 && !buf.is_empty() {
            return Err(Error::from(ErrorKind::StorageFull));
        }
        if self.bytes.extend_from_slice(&buf[..count]).is_err() {
            return Err(Error::from(ErrorKind::OutOfMemory));
        }
        Ok(count)
    }

    fn flush(&mut self) -> Result<(), Error> {
        Ok(())
    }
}

/// Ends a test that ran out of memory: the journal has whole lines, as far as it goes.
pub(crate) fn without_memory(journal: &[u8], whole: &[u8], row: usize) -> Failure {
    let is_whole = journal.is_empty() || journal.last() == Some(&b'\n');
    if is_whole && whole.starts_with(journal) {
        Failure::Memory
    } else {
        Failure::Wrong(row)
    }
}

// A writer in a room of its own, which takes no memory.

use std::io;
use std::io::{Error, ErrorKind, Write};

#[derive(Drop)]
pub(crate) struct Room {
    bytes: [u8; 256],
    used: usize,
}

impl Room {
    pub(crate) fn empty() -> Room {
        Room {
            bytes: [0; 256],
            used: 0,
        }
    }

    /// What was written.
    pub(crate) fn bytes(&self) -> &[u8] {
        self.bytes.get(..self.used).unwrap_or(&[])
    }
}

impl Write for Room {
    fn write(&mut self, buf: &[u8]) -> io::Result<usize> {
        if self.used > self.bytes.len() {
            return Err(Error::from(ErrorKind::BrokenPipe));
        }
        let count = buf.len().min(self.bytes.len() - self.used);
        let (now, _) = buf.split_at(count);
        self.bytes[self.used..self.used + count].copy_from_slice(now);
        self.used += count;
        Ok(count)
    }

    fn flush(&mut self) -> io::Result<()> {
        Ok(())
    }
}

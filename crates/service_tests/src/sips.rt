// A reader that gives little at a time, is interrupted, and fails.

use std::io;
use std::io::{Error, ErrorKind, Read};

/// A reader that gives at most so many bytes a read, is interrupted before each, and fails after so
/// many reads.
#[derive(Drop)]
pub(crate) struct Sips<'a> {
    bytes: &'a [u8],
    most: usize,
    reads: u32,
    interrupted: bool,
}

impl Read for Sips<'_> {
    fn read(&mut self, buf: &mut [u8]) -> io::Result<usize> {
        if self.interrupted {
            self.interrupted = false;
            return Err(Error::from(ErrorKind::Interrupted));
        }
        self.interrupted = true;
        if self.reads == 0 {
            return Err(Error::from(ErrorKind::BrokenPipe));
        }
        self.reads -= 1;
        let count = self.most.min(self.bytes.len()).min(buf.len());
        let (now, later) = self.bytes.split_at(count);
        buf[..count].copy_from_slice(now);
        self.bytes = later;
        Ok(count)
    }
}

/// A reader of these bytes that gives at most `most` of them a read and fails after `reads` reads.
pub(crate) fn sips_of(bytes: &[u8], most: usize, reads: u32) -> Sips<'_> {
    Sips {
        bytes,
        most,
        reads,
        interrupted: true,
    }
}

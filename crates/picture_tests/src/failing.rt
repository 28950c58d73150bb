// A reader that gives some bytes, and then fails.

use crate::playing::{WHOLE, draw};
use journal_audit::AuditFault;
use std::io;
use std::io::{Error, ErrorKind, Read};
use test_outcomes::{Failure, Outcome, check_row};

/// It fails once its bytes are read.
#[derive(Drop)]
pub(crate) struct Breaks<'a> {
    pub(crate) bytes: &'a [u8],
}

impl Read for Breaks<'_> {
    fn read(&mut self, buf: &mut [u8]) -> io::Result<usize> {
        let count = self.bytes.len().min(buf.len());
        if count == 0 {
            return Err(Error::from(ErrorKind::BrokenPipe));
        }
        let (now, later) = self.bytes.split_at(count);
        buf[..count].copy_from_slice(now);
        self.bytes = later;
        Ok(count)
    }
}

/// Rows of what is read, and the marks that are drawn before the reader fails.
const ROWS: [(&str, &str); 4] = [
    ("", ""),
    ("rise n1 old", ""),
    ("rise n1 old\n", "down n1 0-1;1;"),
    (
        "rise n1 old\nrise c1 old\nbegin",
        "down n1 0-1;1;down c1 0-2;2;",
    ),
];

/// A line that isn't read to its end is not drawn, and the end has no marks.
#[test]
fn reader_that_fails(rt: HostRuntime) -> Outcome {
    for (row, (given, told)) in ROWS.iter().enumerate() {
        let reader = Breaks {
            bytes: given.as_bytes(),
        };
        let (came, text) = draw(rt.alloc(), reader, WHOLE)?;
        if let Err(AuditFault::Memory) = came {
            return Err(Failure::Memory);
        }
        check_row(came == Err(AuditFault::Read), row)?;
        check_row(text.as_str() == *told, row)?;
    }
    Ok(())
}

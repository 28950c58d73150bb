// Lines that are cut from bytes as they come.

ghost use Rattle.std.specs.Prelude.{◌<◌, IfSome, length};

use std::alloc::Global;

/// A longer line, counted without its line feed, comes as an empty one.
pub const MAX_LINE_LEN: usize = 65_536;

/// Bytes that have come, of which lines are taken.
#[derive(Drop)]
pub(crate) struct HeldLines {
    held: Vec<u8>,
    // Where the next line begins.
    start: usize,
    // How far it is known to have no line feed.
    seen: usize,
    // Whether the line is too long, so that it is dropped up to its line feed.
    is_skipping: bool,
}

/// Where the first line feed is.
fn feed_in(bytes: &[u8]) -> Option<usize>
    ensures { IfSome result (λ at. at < length bytes.now) }
{
    bytes.iter().position(|byte| *byte == b'\n')
}

impl HeldLines {
    /// Nothing has come.
    pub(crate) fn new(alloc: Global) -> HeldLines {
        HeldLines {
            held: Vec::new(alloc),
            start: 0,
            seen: 0,
            is_skipping: false,
        }
    }

    /// Forgets what has come.
    pub(crate) fn clear(&mut self) {
        self.held.clear();
        self.start = 0;
        self.seen = 0;
        self.is_skipping = false;
    }

    /// Adds bytes behind those that have come. If memory runs out they are lost.
    pub(crate) fn add(&mut self, bytes: &[u8]) {
        self.drop_taken();
        if self.held.len() > MAX_LINE_LEN {
            self.clear();
            self.is_skipping = true;
        }
        let mut fresh = bytes;
        if self.is_skipping {
            let Some(end) = feed_in(bytes) else {
                return;
            };
            self.is_skipping = false;
            fresh = &bytes[end..];
        }
        let _ = self.held.extend_from_slice(fresh);
    }

    /// Drops the lines that were taken.
    fn drop_taken(&mut self) {
        let Some(rest) = self.held.len().checked_sub(self.start) else {
            return;
        };
        self.held.copy_within(self.start.., 0);
        self.held.truncate(rest);
        self.seen = self.seen.saturating_sub(self.start);
        self.start = 0;
    }

    /// Moves the next line to `line`, without its line feed, if a whole one has come. If memory runs out it is lost.
    pub(crate) fn next(&mut self, line: &mut Vec<u8>) -> bool {
        let Some(end) = self.held.get(self.seen..).and_then(feed_in) else {
            self.seen = self.held.len();
            return false;
        };
        let end = self.seen.saturating_add(end);
        let found = self.held.get(self.start..end).unwrap_or(b"");
        self.start = end.saturating_add(1);
        self.seen = self.start;
        line.clear();
        found.len() > MAX_LINE_LEN || line.extend_from_slice(found).is_ok()
    }
}

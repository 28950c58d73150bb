// Bytes that were read and are still to be given.

ghost use Rattle.std.specs.Prelude.{◌≡◌, ◌≢◌, ◌⊎◌, ◌<◌, ◌≤◌, ◌+◌, ◌++◌, ℕ, List, Option, [], length, Ok, IfOk, IfErr, OnOk, OnErr, true, false, vec_len, vec_capacity};
ghost use Rattle.std.specs.List.{list_any};
ghost use Rattle.std.specs.Io.{ReadsAtMost};
ghost use Rattle.std.specs.Io.KnownBytes.{ReadConsumes, prepend_known};
ghost use Rattle.std.specs.IoError.{error_kind};
ghost use Rattle.memchr.specs.Find.{IsFirstByte, is_byte};
ghost use Rattle.line_streams.specs.Streams.{is_line_feed, FindsFront, Fetches, TakesHeld};

use crate::StreamFault;
use memchr::{memchr, memrchr};
use std::io::{Error, ErrorKind, Read};
use std::marker::Model;

/// The most bytes that are read ahead: so many a read may give.
pub const MAX_AHEAD: usize = 4_096;

/// The bytes among which a line feed is looked for first: a vector's, which `memchr` looks at in one step.
const NEAR: usize = 32;

/// Bytes that were read and are still to be given, and how often the reader may be asked yet. The
/// reader is passed beside them, the same one at each call.
///
/// Contracts see the bytes.
#[derive(Drop)]
pub struct ReadAhead {
    // The bytes from `at` to `end`.
    room: [u8; MAX_AHEAD],
    at: usize,
    end: usize,
    // Where the last line feed of the last read stands, if it has one.
    last_feed: usize,
    reads_left: u32,
}

impl Model for ReadAhead {
    ghost use Rattle.std.specs.Prelude.{ℕ, ◌≤◌, List};
    ghost use Rattle.std.specs.List.{slice_range};
    ghost use Rattle.line_streams.specs.declared.holding.TheConstants.{MAX_AHEAD};

    ghost Value = { List ℕ };

    ghost view = { λ s. slice_range s.room s.at s.end };

    ghost invariant = { λ s. (s.at ≤ s.end) × (s.end ≤ MAX_AHEAD) };
}

impl ReadAhead {
    /// Nothing is held, and the reader may be asked so often.
    pub fn new(reads_left: u32) -> ReadAhead
        ensures { result ≡ [] }
    {
        ReadAhead {
            room: [0; MAX_AHEAD],
            at: 0,
            end: 0,
            last_feed: 0,
            reads_left,
        }
    }

    /// Whether a line feed is held.
    pub(crate) fn has_feed(&self) -> bool
        ensures { result ≡ list_any is_line_feed self.now }
    {
        let likely = self.last_feed.saturating_sub(self.at);
        has_feed(&self.room[self.at..self.end], likely)
    }

    /// Sees to it that bytes are held, by a read where there is none; answers `false` where none is
    /// left. Where some are held the reader isn't asked. A fault is `Read`, and leaves nothing held.
    pub(crate) fn fetch<R: Read>(&mut self, reader: &mut R) -> Result<bool, StreamFault>
        ensures bytes { Fetches (prepend_known self.old (R.remaining reader.old)) (prepend_known self.new (R.remaining reader.new)) result }
        ensures some { IfOk result (λ found. found ≡ true → 0 < length self.new) }
        ensures held { 0 < length self.old → (result ≡ Ok true) × (self.new ≡ self.old) × (reader.new ≡ reader.old) }
        ensures room { length self.new ≤ MAX_AHEAD }
        ensures fault { IfErr result (λ e. e ≡ StreamFault.Read) }
        ensures none { OnErr result (self.new ≡ []) }
    {
        if self.at < self.end {
            return Ok(true);
        }
        self.at = 0;
        self.end = 0;
        let Ok(count) = fill(reader, &mut self.reads_left, &mut self.room) else {
            return Err(StreamFault::Read);
        };
        self.end = count;
        self.last_feed = last_feed(&self.room[..count]);
        if count == 0 {
            return Ok(false);
        }
        Ok(true)
    }

    /// Adds to the line what stands at the front of the bytes that are held, at most `most` bytes;
    /// answers whether a line feed followed, which was taken too. Else all of them were added, or as many as
    /// may be. A fault is `Memory`, where the line has no room for `most` bytes more, and changes nothing.
    pub(crate) fn take(&mut self, line: &mut Vec<u8>, most: usize) -> Result<bool, StreamFault>
        ensures bytes { (behind : Option (List ℕ)) → TakesHeld most (prepend_known self.old behind) (prepend_known self.new behind) line.old.items line.new.items result }
        ensures few { IfOk result (λ _. vec_len line.new ≤ vec_len line.old + most) }
        ensures fewer { IfOk result (λ fed. fed ≡ true → vec_len line.new < vec_len line.old + most) }
        ensures all { IfOk result (λ fed. fed ≡ false → ((vec_len line.new ≡ vec_len line.old + most) × (most ≤ length self.old)) ⊎ ((vec_len line.new ≡ vec_len line.old + length self.old) × (list_any is_line_feed self.old ≡ false))) }
        ensures room { length self.new ≤ MAX_AHEAD }
        ensures fault { IfErr result (λ e. (e ≡ StreamFault.Memory) × (self.new ≡ self.old) × (line.new.items ≡ line.old.items)) }
        ensures capacity { vec_capacity line.old ≤ vec_capacity line.new }
        ensures full { OnErr result (vec_capacity line.old < vec_len line.old + most) }
    {
        let held = &self.room[self.at..self.end];
        let (count, feed) = plain_front(held, most);
        let (front, _) = held.split_at(count);
        add(line, front)?;
        self.at += count;
        if feed {
            self.at += 1;
            return Ok(true);
        }
        Ok(false)
    }
}

/// Adds the bytes. A fault is `Memory`, where the line has no room for them, and adds none.
fn add(line: &mut Vec<u8>, bytes: &[u8]) -> Result<(), StreamFault>
    ensures bytes { OnOk result (line.new.items ≡ line.old.items ++ bytes.now) }
    ensures none { OnErr result (line.new.items ≡ line.old.items) }
    ensures fault { IfErr result (λ e. e ≡ StreamFault.Memory) }
    ensures capacity { vec_capacity line.old ≤ vec_capacity line.new }
    ensures full { OnErr result (vec_capacity line.old < vec_len line.old + length bytes.now) }
{
    if line.extend_from_slice(bytes).is_err() {
        return Err(StreamFault::Memory);
    }
    Ok(())
}

/// Whether a line feed is among the bytes. It looks first where one is likely.
fn has_feed(bytes: &[u8], likely: usize) -> bool
    ensures { result ≡ list_any is_line_feed bytes.now }
{
    if likely < bytes.len() && bytes[likely] == b'\n' {
        return true;
    }
    bytes.iter().any(|byte| *byte == b'\n')
}

/// Where the last line feed stands; 0 where there is none.
fn last_feed(bytes: &[u8]) -> usize {
    memrchr(b'\n', bytes).unwrap_or(0)
}

/// Where the first line feed stands. It looks first among so many bytes as most lines have.
fn first_feed(bytes: &[u8]) -> Option<usize>
    ensures { IsFirstByte (is_byte 10) bytes.now result }
{
    let near = NEAR.min(bytes.len());
    match memchr(b'\n', &bytes[..near]) {
        Some(at) => Some(at),
        None => memchr(b'\n', bytes),
    }
}

/// How many bytes stand before the first line feed, `most` at most, and whether it was met.
fn plain_front(bytes: &[u8], most: usize) -> (usize, bool)
    ensures { FindsFront bytes.now most result.0 result.1 }
{
    let upto = most.min(bytes.len());
    match first_feed(&bytes[..upto]) {
        Some(at) => (at, true),
        None => (upto, false),
    }
}

/// One read, made again where a signal interrupts it, while reads are left. So an error is the
/// reader's, and no interruption, or says that no read was left.
fn fill<R: Read>(reader: &mut R, reads_left: &mut u32, room: &mut [u8]) -> Result<usize, Error>
    ensures bound { ReadsAtMost result room.new }
    ensures bytes { ReadConsumes (R.remaining reader.old) (R.remaining reader.new) result room.new }
    ensures retried { IfErr result (λ e. error_kind e ≢ ErrorKind.Interrupted) }
{
    while *reads_left > 0 {
        *reads_left -= 1;
        match reader.read(room) {
            Ok(count) => return Ok(count),
            Err(e) => {
                if e.kind() != ErrorKind::Interrupted {
                    return Err(e);
                }
            }
        }
    }
    Err(Error::from(ErrorKind::TimedOut))
}

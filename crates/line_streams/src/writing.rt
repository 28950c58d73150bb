// An output that is gathered before it is written.

ghost use Rattle.std.specs.Prelude.{◌≡◌, ◌≢◌, ◌+◌, ◌≤◌, ◌<◌, [], ◌++◌, length, take, IfErr, OnOk, OnErr, IsOk, true, false, nat_lt};
ghost use Rattle.std.specs.Io.{WritesAtMost};
ghost use Rattle.std.specs.Io.KnownBytes.{WriteAppends, Appends, Keeps};
ghost use Rattle.std.specs.IoError.{error_kind};
ghost use Rattle.line_streams.specs.Streams.{LetsOut, Grows, Puts, with_gathered};
ghost use Rattle.line_streams.specs.declared.writing.TheConstants.{MAX_GATHERED};

use crate::{MAX_READS, StreamFault};
use std::io::{Error, ErrorKind, Write};
use std::marker::Model;

/// How many bytes are gathered at most.
pub const MAX_GATHERED: usize = 4_096;

/// Bytes that are to be written. They are passed a writer where some may be written, the same one at
/// each call.
///
/// Contracts see the bytes.
/// It does not hold the writer by &mut: then it could not say what the writer holds once it is gone.
#[derive(Drop)]
pub struct Gathered {
    // The bytes before `end`.
    room: [u8; MAX_GATHERED],
    end: usize,
}

impl Model for Gathered {
    ghost use Rattle.std.specs.Prelude.{ℕ, ◌≤◌, List, take};
    ghost use Rattle.line_streams.specs.declared.writing.TheConstants.{MAX_GATHERED};

    ghost Value = { List ℕ };

    ghost view = { λ s. take s.end s.room };

    ghost invariant = { λ s. s.end ≤ MAX_GATHERED };
}

impl Gathered {
    /// Nothing is gathered.
    pub fn new() -> Gathered
        ensures { result ≡ [] }
    {
        Gathered {
            room: [0; MAX_GATHERED],
            end: 0,
        }
    }

    /// Whether another byte can be gathered.
    fn has_room(&self) -> bool
        ensures { result ≡ nat_lt (length self.now) MAX_GATHERED }
    {
        self.end < MAX_GATHERED
    }

    /// Gathers what there is room for, and answers how many bytes that are.
    fn gather(&mut self, text: &[u8]) -> usize
        ensures bound { result ≤ length text.now }
        ensures bytes { self.new ≡ self.old ++ take result text.now }
        ensures some { length self.old < MAX_GATHERED → 0 < length text.now → 0 < result }
    {
        let count = text.len().min(MAX_GATHERED - self.end);
        self.room[self.end..self.end + count].copy_from_slice(&text[..count]);
        self.end += count;
        count
    }

    /// Writes what is gathered; where nothing is, the writer is not asked. After a fault, which is
    /// `Write`, what was not written is still gathered, and that is not nothing.
    pub fn let_out<W: Write>(&mut self, writer: &mut W) -> Result<(), StreamFault>
        ensures bytes { LetsOut (W.contents writer.old) (W.contents writer.new) self.old self.new }
        ensures empty { OnOk result (self.new ≡ []) }
        ensures rest { OnErr result (0 < length self.new) }
        ensures nothing { self.old ≡ [] → (writer.new ≡ writer.old) × IsOk result }
        ensures fault { IfErr result (λ e. e ≡ StreamFault.Write) }
    {
        let (count, whole) = write_out(writer, &self.room[..self.end]);
        self.room.copy_within(count..self.end, 0);
        self.end -= count;
        if !whole {
            return Err(StreamFault::Write);
        }
        Ok(())
    }

    /// Writes what is gathered if there is no room for more. A fault is `Write`.
    fn make_room<W: Write>(&mut self, writer: &mut W) -> Result<(), StreamFault>
        ensures kept { Keeps (with_gathered (W.contents writer.old) self.old) (with_gathered (W.contents writer.new) self.new) }
        ensures grows { Grows (W.contents writer.old) (W.contents writer.new) }
        ensures room { OnOk result (length self.new < MAX_GATHERED) }
        ensures quiet { length self.old < MAX_GATHERED → (writer.new ≡ writer.old) × (self.new ≡ self.old) × IsOk result }
        ensures fault { IfErr result (λ e. e ≡ StreamFault.Write) }
    {
        if self.has_room() {
            return Ok(());
        }
        self.let_out(writer)
    }

    /// Gathers the text, and writes wherever there is no room for more: where the text fits, nothing
    /// is written. After a fault, which is `Write`, a beginning of the text was written or is
    /// gathered, and not all of it.
    pub fn put<W: Write>(&mut self, writer: &mut W, text: &[u8]) -> Result<(), StreamFault>
        ensures text { Puts (with_gathered (W.contents writer.old) self.old) (with_gathered (W.contents writer.new) self.new) text.now result }
        ensures quiet { length self.old + length text.now ≤ MAX_GATHERED → (writer.new ≡ writer.old) × IsOk result }
        ensures held { length self.old + length text.now ≤ MAX_GATHERED → self.new ≡ self.old ++ text.now }
        ensures grows { Grows (W.contents writer.old) (W.contents writer.new) }
        ensures fault { IfErr result (λ e. e ≡ StreamFault.Write) }
    {
        let mut rest = text;
        while !rest.is_empty() {
            self.make_room(writer)?;
            let count = self.gather(rest);
            let (_, behind) = rest.split_at(count);
            rest = behind;
        }
        Ok(())
    }
}

/// Writes the text at once; for an empty one the writer is not asked. After a fault, which is
/// `Write`, a beginning of it was written, and not all of it.
pub fn write_text<W: Write>(writer: &mut W, text: &[u8]) -> Result<(), StreamFault>
    ensures text { Puts (W.contents writer.old) (W.contents writer.new) text.now result }
    ensures nothing { text.now ≡ [] → (writer.new ≡ writer.old) × IsOk result }
    ensures fault { IfErr result (λ e. e ≡ StreamFault.Write) }
{
    let (_, whole) = write_out(writer, text);
    if whole {
        return Ok(());
    }
    Err(StreamFault::Write)
}

/// Writes the text: answers how many bytes were written, and whether these are all.
fn write_out<W: Write>(writer: &mut W, text: &[u8]) -> (usize, bool)
    ensures bound { result.0 ≤ length text.now }
    ensures whole { result.1 ≡ true → result.0 ≡ length text.now }
    ensures fewer { result.1 ≡ false → result.0 < length text.now }
    ensures nothing { text.now ≡ [] → (writer.new ≡ writer.old) × (result.1 ≡ true) }
    ensures bytes { Appends (W.contents writer.old) (W.contents writer.new) (take result.0 text.now) }
{
    let mut count = 0;
    while count < text.len() {
        let (_, rest) = text.split_at(count);
        let Ok(some) = write_some(writer, rest) else {
            return (count, false);
        };
        if some == 0 {
            return (count, false);
        }
        count += some;
    }
    (count, true)
}

/// One write, made again where a signal interrupts it. So an error is the writer's, and no
/// interruption, or says that it was tried `MAX_READS` times.
fn write_some<W: Write>(writer: &mut W, text: &[u8]) -> Result<usize, Error>
    ensures bound { WritesAtMost result text.now }
    ensures bytes { WriteAppends (W.contents writer.old) (W.contents writer.new) result text.now }
    ensures retried { IfErr result (λ e. error_kind e ≢ ErrorKind.Interrupted) }
{
    for _ in 0..MAX_READS {
        match writer.write(text) {
            Ok(count) => return Ok(count),
            Err(e) => {
                if e.kind() != ErrorKind::Interrupted {
                    return Err(e);
                }
            }
        }
    }
    Err(Error::from(ErrorKind::TimedOut))
}

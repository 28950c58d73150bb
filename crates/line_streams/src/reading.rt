// An input, line by line.

ghost use Rattle.std.specs.Prelude.{◌≡◌, ◌≢◌, ◌<◌, ◌≤◌, ℕ, List, Option, [], length, IfOk, IfErr, IfSome, true, vec_capacity};
ghost use Rattle.std.specs.Io.KnownBytes.{prepend_known};
ghost use Rattle.std.specs.List.{list_any};
ghost use Rattle.line_streams.specs.Streams.{is_line_feed, is_last, ends_no_line, ReadsPiece, TakesLine, FitsLimit, EndsLine, HasMore};

use crate::{MAX_AHEAD, ReadAhead, StreamFault};
use std::io::Read;
use std::marker::Model;

/// The most reads that a run makes, and the most tries of writing one text.
pub const MAX_READS: u32 = 600_000_000;

/// How a line ended.
#[derive(Clone, Copy, Debug, PartialEq, Eq)]
pub enum End {
    /// By a line feed, which was taken too.
    LineFeed,
    /// With the input.
    Input,
    /// Not yet: it is longer than the limit.
    Limit,
}

impl End {
    /// Whether nothing follows a piece that ended so.
    pub fn is_last(self) -> bool
        ensures { result ≡ is_last self }
    {
        matches!(self, End::Input)
    }

    /// Whether a piece that ended so is no line: it is empty, and stands behind the last line feed. So
    /// a last line counts without its line feed, and of a line that is longer than the limit its
    /// beginning, which is longer too, stands for it.
    pub fn ends_no_line(self, piece: &[u8]) -> bool
        ensures { result ≡ ends_no_line self piece.now }
    {
        match self {
            End::LineFeed | End::Limit => false,
            End::Input => piece.is_empty(),
        }
    }
}

impl ReadAhead {
    /// Reads on to the next line feed or to the end, and leaves in `line` what stands before it, in
    /// place of what stood there. Of a line that is longer than the limit a beginning is left there that is
    /// longer by a byte, and nothing behind that is taken. The reader is asked only where what was read ahead
    /// has no line feed, and no more bytes than the limit; else what is given and taken is of what was
    /// read ahead, whatever the reader has left. The room of `line` doesn't shrink.
    ///
    /// # Errors
    ///
    /// `Read` where the reader fails or was asked as often as it may be: then nothing is held. `Memory`
    /// where the line needs room and memory was refused: then bytes are still held, and `line` had no room
    /// for a byte more than the limit. At both `line` has what was taken of the line, which is within the
    /// limit, and no line feed was taken.
    pub fn read_line<R: Read>(
        &mut self,
        reader: &mut R,
        line: &mut Vec<u8>,
        limit: usize,
    ) -> Result<End, StreamFault>
        ensures line { IfOk result (λ end. ReadsPiece limit (prepend_known self.old (R.remaining reader.old)) (prepend_known self.new (R.remaining reader.new)) line.new.items end) }
        ensures taken { TakesLine (prepend_known self.old (R.remaining reader.old)) (prepend_known self.new (R.remaining reader.new)) line.new.items result }
        ensures few { FitsLimit limit line.new.items result }
        ensures asks { EndsLine limit self.old → reader.new ≡ reader.old }
        ensures held { (behind : Option (List ℕ)) → EndsLine limit self.old → IfOk result (λ end. ReadsPiece limit (prepend_known self.old behind) (prepend_known self.new behind) line.new.items end) }
        ensures held_taken { (behind : Option (List ℕ)) → EndsLine limit self.old → TakesLine (prepend_known self.old behind) (prepend_known self.new behind) line.new.items result }
        ensures ahead { length self.new ≤ MAX_AHEAD }
        ensures fault { IfErr result (λ e. e ≢ StreamFault.Write) }
        ensures which { IfErr result (λ e. (e ≡ StreamFault.Read → self.new ≡ []) × (e ≡ StreamFault.Memory → 0 < length self.new)) }
        ensures memory { IfErr result (λ e. e ≡ StreamFault.Memory → vec_capacity line.old ≤ limit) }
        ensures room { vec_capacity line.old ≤ vec_capacity line.new }
    {
        line.clear();
        // Each round takes a byte at least, so the room up to the limit bounds them.
        loop {
            let found = self.fetch(reader)?;
            if !found {
                return Ok(End::Input);
            }
            let most = (limit - line.len()).min(MAX_AHEAD) + 1;
            let fed = self.take(line, most)?;
            if fed {
                return Ok(End::LineFeed);
            }
            if line.len() > limit {
                return Ok(End::Limit);
            }
        }
    }
}

/// A reader with what was read ahead of it: its bytes, line by line. The reader is asked in large
/// blocks, and so often as the caller says at most.
///
/// Contracts see the bytes that are left, where they are known: those that were read ahead, and behind
/// them what the reader has left.
#[derive(Drop)]
pub struct LineReader<R: Read> {
    /// The reader.
    pub reader: R,
    /// What was read ahead of it.
    pub ahead: ReadAhead,
}

impl<R: Read> Model for LineReader<R> {
    ghost use Rattle.std.specs.Prelude.{ℕ, List, Option};
    ghost use Rattle.std.specs.Io.KnownBytes.{prepend_known};

    ghost Value = { Option (List ℕ) };

    ghost view = { λ s. prepend_known s.ahead (R.remaining s.reader) };
}

impl<R: Read> LineReader<R> {
    /// The bytes of the reader, which may be asked so often.
    pub fn new(reader: R, reads_left: u32) -> LineReader<R>
        ensures { result ≡ R.remaining reader }
    {
        LineReader {
            reader,
            ahead: ReadAhead::new(reads_left),
        }
    }

    /// Whether a line feed is among the bytes that were read and are still to be given. Then
    /// `read_line` doesn't ask the reader; else it may wait for it.
    pub fn has_line(&self) -> bool
        ensures { result ≡ true → IfSome self.now (λ xs. list_any is_line_feed xs ≡ true) }
    {
        self.ahead.has_feed()
    }

    /// Reads a line, as `ReadAhead::read_line` does. A line with room for a byte more than the limit is
    /// never refused memory, and where one is, more bytes are left.
    ///
    /// # Errors
    ///
    /// Those of `ReadAhead::read_line`.
    pub fn read_line(&mut self, line: &mut Vec<u8>, limit: usize) -> Result<End, StreamFault>
        ensures line { IfOk result (λ end. ReadsPiece limit self.old self.new line.new.items end) }
        ensures taken { TakesLine self.old self.new line.new.items result }
        ensures few { FitsLimit limit line.new.items result }
        ensures fault { IfErr result (λ e. e ≢ StreamFault.Write) }
        ensures memory { IfErr result (λ e. e ≡ StreamFault.Memory → vec_capacity line.old ≤ limit) }
        ensures more { IfErr result (λ e. e ≡ StreamFault.Memory → HasMore self.new) }
        ensures room { vec_capacity line.old ≤ vec_capacity line.new }
    {
        self.ahead.read_line(&mut self.reader, line, limit)
    }
}

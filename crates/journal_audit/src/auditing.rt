// The audit, from the bytes that come in to the line that goes out.

ghost use Rattle.std.specs.Prelude.{◌≡◌};
ghost use Rattle.journal_audit.specs.Audits.{Audits};
ghost use Rattle.journal_audit.specs.Hearing.{Hears, end_words, with_words};
ghost use Rattle.journal_audit.specs.Leavings.{Leaves};
ghost use Rattle.journal_audit.specs.Verdicts.{Finds};

use crate::judging::judge_lines;
use crate::telling::tell_verdict;
use crate::{AuditFault, Unwatched, Verdict, Watcher};
use event_lines::laws::events_are_spelled_once;
use line_streams::{LineReader, MAX_READS};
use std::alloc::Global;
use std::io::{Read, Write};
use world_machine::World;

/// Shows the end of a sound journal.
fn show_end<V: Watcher>(verdict: Verdict, watcher: &mut V)
    ensures { V.heard watcher.new ≡ with_words (end_words verdict) (V.heard watcher.old) }
{
    match verdict {
        Verdict::Sound(lines) => watcher.see_end(lines),
        Verdict::Unsound(_, _) => {}
    }
}

/// Judges the lines that are left of an input, as `audit` does; the reads that were made before count
/// with those that it makes. Of the input it takes the lines up to the one that its verdict speaks of, and
/// leaves what stands behind: after `Unsound` of a line just what follows that line's line feed, or the 129
/// bytes of it that show it too long; after `Sound` nothing. After 816 the lines that it took are a run,
/// and behind them at most one more was begun, of which no line feed was taken. After 818 nothing was taken at
/// all; or this is so, and more of the input is left; or one more line was taken whole, and it goes on with the
/// run: it is an event that asks for memory, and its step would be taken. So no line that was taken whole is
/// unsound then.
///
/// The watcher hears what each line came to, in order, and of a sound journal how many they are. What is answered,
/// written and left doesn't depend on it.
///
/// # Errors
///
/// Those of `audit`.
pub fn audit_watched<R: Read, W: Write, V: Watcher>(
    alloc: Global,
    world: World,
    source: &mut LineReader<R>,
    writer: &mut W,
    watcher: &mut V,
) -> Result<Verdict, AuditFault>
    requires { Unit {0} }
    ensures verdict { Finds world source.old result }
    ensures told { Audits world source.old (W.contents writer.old) (W.contents writer.new) result }
    ensures left { Leaves world source.old source.new result }
    ensures heard { Hears world source.old (V.heard watcher.old) (V.heard watcher.new) result }
{
    events_are_spelled_once();
    let mut world = world;
    let verdict = match judge_lines(alloc, &mut world, source, watcher) {
        Ok(verdict) => verdict,
        Err(fault) => return Err(fault),
    };
    show_end(verdict, watcher);
    match tell_verdict(verdict, writer) {
        Ok(()) => Ok(verdict),
        Err(fault) => Err(fault),
    }
}

/// Judges the lines that are left of an input, as `audit_watched` does where nobody looks on.
///
/// # Errors
///
/// Those of `audit`.
pub fn audit_lines<R: Read, W: Write>(
    alloc: Global,
    world: World,
    source: &mut LineReader<R>,
    writer: &mut W,
) -> Result<Verdict, AuditFault>
    requires { Unit {0} }
    ensures verdict { Finds world source.old result }
    ensures told { Audits world source.old (W.contents writer.old) (W.contents writer.new) result }
    ensures left { Leaves world source.old source.new result }
{
    audit_watched(alloc, world, source, writer, &mut Unwatched)
}

/// Judges a journal: whether its lines are events that are a run from the world.
///
/// The lines are what stands between line feeds; a last one without a line feed counts, and what is
/// empty behind the last line feed is none. A line is no event as `read_event` judges it: an empty one
/// is `Word` (801), a carriage return belongs to its word, and a line over 128 bytes is `Words` (805) as
/// soon as its byte 129 has come. The audit ends at the first line that is no event or is refused, and
/// asks the reader for nothing behind the answer that brought it. It writes the verdict's line:
/// `sound N`, `unsound L fault N` or `unsound L refused N`. It keeps the world and one line, and each
/// line costs what its event does in the world.
///
/// Contracts speak of what the reader has left and of what the writer holds, where these are known. The
/// caller owes nothing.
///
/// # Errors
///
/// `Read` (816) where the reader fails or 600,000,000 reads were made, `Memory` (818) where memory was
/// refused, `TooManyLines` (819) where there are more than `MAX_LINES` lines: each only where it is met
/// before an unsound line, and then nothing is written. What 816 and 818 say of the lines is in the
/// contract of `audit_lines` alone, which knows what is left of the input. `Write` (817) where the writer
/// fails or takes nothing; then a beginning of the verdict's line was written, and not all. A read or a write that a
/// signal interrupts is made again.
pub fn audit<R: Read, W: Write>(
    alloc: Global,
    world: World,
    reader: R,
    writer: &mut W,
) -> Result<Verdict, AuditFault>
where
    R: Drop,
    requires { Unit {0} }
    ensures verdict { Finds world (R.remaining reader) result }
    ensures told { Audits world (R.remaining reader) (W.contents writer.old) (W.contents writer.new) result }
{
    let mut source = LineReader::new(reader, MAX_READS);
    audit_lines(alloc, world, &mut source, writer)
}

// A history, line by line.

ghost use Rattle.std.specs.Prelude.{◌≡◌, ◌<◌, [], length, IfErr, IfOk, OnOk, OnErr, IsOk, string_bytes};
ghost use Rattle.std.specs.Io.KnownBytes.{Keeps};
ghost use Rattle.line_streams.specs.Streams.{Grows, LetsOut, Puts, with_gathered};
ghost use Rattle.journal_text.specs.Journals.{event_line, history_text, AppendsLines, AreWellNamed};

use crate::JournalFault;
use crate::naming::tell_names;
use event_lines::write_event;
use line_streams::Gathered;
use std::alloc::Global;
use std::io::Write;
use world_model::{Effect, Event};

/// The line of an event, with its line feed. The only fault is want of memory.
fn line_of(alloc: Global, event: &Event) -> Result<String, JournalFault>
    ensures text { IfOk result (λ line. string_bytes line ≡ event_line event.now) }
    ensures fault { IfErr result (λ e. e ≡ JournalFault.Memory) }
{
    let Ok(mut line) = write_event(alloc, event) else {
        return Err(JournalFault::Memory);
    };
    if line.push('\n').is_err() {
        return Err(JournalFault::Memory);
    }
    Ok(line)
}

/// Gathers the line of an event. Where memory is refused nothing of it is gathered; else the fault is
/// the writer's.
#[tactic(auto, using(crate::proofs::TextFacts::none_of_a_line))]
fn put_line<W: Write>(
    alloc: Global,
    event: &Event,
    out: &mut Gathered,
    writer: &mut W,
) -> Result<(), JournalFault>
    ensures text { Puts (with_gathered (W.contents writer.old) out.old) (with_gathered (W.contents writer.new) out.new) (event_line event.now) result }
    ensures grows { Grows (W.contents writer.old) (W.contents writer.new) }
    ensures memory { IfErr result (λ e. e ≡ JournalFault.Memory → Keeps (with_gathered (W.contents writer.old) out.old) (with_gathered (W.contents writer.new) out.new)) }
{
    let line = match line_of(alloc, event) {
        Ok(line) => line,
        Err(fault) => return Err(fault),
    };
    match out.put(writer, line.as_bytes()) {
        Ok(()) => Ok(()),
        Err(_) => Err(JournalFault::Write),
    }
}

/// Gathers the lines of a history. Where memory is refused whole lines were gathered; else the fault is
/// the writer's.
fn put_lines<W: Write>(
    alloc: Global,
    history: &[(Event, Effect)],
    out: &mut Gathered,
    writer: &mut W,
) -> Result<(), JournalFault>
    ensures text { Puts (with_gathered (W.contents writer.old) out.old) (with_gathered (W.contents writer.new) out.new) (history_text history.now) result }
    ensures grows { Grows (W.contents writer.old) (W.contents writer.new) }
    ensures named { OnOk result (AreWellNamed history.now) }
    ensures memory { IfErr result (λ e. e ≡ JournalFault.Memory → AppendsLines (with_gathered (W.contents writer.old) out.old) (with_gathered (W.contents writer.new) out.new) history.now) }
    ensures none { history.now ≡ [] → out.new ≡ out.old }
{
    for (event, _) in history {
        tell_names(event);
        match put_line(alloc, event, out, writer) {
            Ok(()) => {}
            Err(fault) => return Err(fault),
        }
    }
    Ok(())
}

/// Writes what is gathered. The only fault is the writer's.
fn end_text<W: Write>(out: &mut Gathered, writer: &mut W) -> Result<(), JournalFault>
    ensures bytes { LetsOut (W.contents writer.old) (W.contents writer.new) out.old out.new }
    ensures empty { OnOk result (out.new ≡ []) }
    ensures rest { OnErr result (0 < length out.new) }
    ensures nothing { out.old ≡ [] → IsOk result }
    ensures fault { IfErr result (λ e. e ≡ JournalFault.Write) }
{
    if out.let_out(writer).is_err() {
        return Err(JournalFault::Write);
    }
    Ok(())
}

/// Writes the journal of a history: each event's one text and a line feed, in order.
///
/// Lines are gathered and written in large parts; the last part is written before the call answers.
/// Contracts speak of what the writer holds, where this is known.
///
/// # Errors
///
/// `Write` (817) where the writer fails or takes nothing, `Memory` (818) where memory was refused. Then
/// a beginning of the journal was written, and not all of it. A write that a signal interrupts is made again.
pub fn write_history<W: Write>(
    alloc: Global,
    history: &[(Event, Effect)],
    writer: &mut W,
) -> Result<(), JournalFault>
    ensures text { Puts (W.contents writer.old) (W.contents writer.new) (history_text history.now) result }
    // What the events name there may be. So each line spells its event, where its number or place is in range.
    ensures named { OnOk result (AreWellNamed history.now) }
{
    let mut out = Gathered::new();
    match put_lines(alloc, history, &mut out, writer) {
        Ok(()) => {}
        Err(fault) => return Err(fault),
    }
    match end_text(&mut out, writer) {
        Ok(()) => Ok(()),
        Err(fault) => Err(fault),
    }
}

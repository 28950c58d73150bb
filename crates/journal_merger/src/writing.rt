// The events of a line that was taken, as text.

ghost use Rattle.std.specs.Prelude.{◌≡◌, ◌∷◌, [], ◌++◌, IfErr, IfOk, string_bytes};
ghost use Rattle.std.specs.List.{flat_map};
ghost use Rattle.journal_text.specs.Journals.{event_line};
ghost use Rattle.journal_merger.specs.Pendings.{said_next, told_by};
ghost use Rattle.journal_merger.specs.Merges.{Gathers, IsMergeFault};

use crate::JournalsFault;
use crate::reading::OwnJournal;
use event_lines::write_event;
use line_merger::{Taken, reading_by};
use line_streams::Gathered;
use own_journals::OwnLine;
use std::alloc::Global;
use std::io::{Read, Write};
use world_model::Event;

/// The line of an event, with its line feed.
fn line_of(alloc: Global, event: &Event) -> Result<String, JournalsFault>
    ensures text { IfOk result (λ line. string_bytes line ≡ event_line event.now) }
    ensures fault { IfErr result (λ f. IsMergeFault f) }
{
    let Ok(mut line) = write_event(alloc, event) else {
        return Err(JournalsFault::Memory);
    };
    if line.push('\n').is_err() {
        return Err(JournalsFault::Memory);
    }
    Ok(line)
}

/// Gathers a text.
fn put_text<W: Write>(text: &[u8], out: &mut Gathered, writer: &mut W) -> Result<(), JournalsFault>
    ensures text { Gathers (W.contents writer.old) (W.contents writer.new) out.old out.new text.now result }
    ensures fault { IfErr result (λ f. IsMergeFault f) }
{
    match out.put(writer, text) {
        Ok(()) => Ok(()),
        Err(_) => Err(JournalsFault::Write),
    }
}

/// Gathers a line of this text, with its line feed.
fn put_line<W: Write>(text: &[u8], out: &mut Gathered, writer: &mut W) -> Result<(), JournalsFault>
    ensures text { Gathers (W.contents writer.old) (W.contents writer.new) out.old out.new (text.now ++ 10 ∷ []) result }
    ensures fault { IfErr result (λ f. IsMergeFault f) }
{
    match put_text(text, out, writer) {
        Ok(()) => {}
        Err(fault) => return Err(fault),
    }
    put_text(b"\n", out, writer)
}

/// Gathers the line of an event.
fn put_event<W: Write>(
    alloc: Global,
    event: &Event,
    out: &mut Gathered,
    writer: &mut W,
) -> Result<(), JournalsFault>
    ensures text { Gathers (W.contents writer.old) (W.contents writer.new) out.old out.new (event_line event.now) result }
    ensures fault { IfErr result (λ f. IsMergeFault f) }
{
    let line = match line_of(alloc, event) {
        Ok(line) => line,
        Err(fault) => return Err(fault),
    };
    put_text(line.as_bytes(), out, writer)
}

/// Gathers the lines of two events.
fn put_both<W: Write>(
    alloc: Global,
    first: &Event,
    second: &Event,
    out: &mut Gathered,
    writer: &mut W,
) -> Result<(), JournalsFault>
    ensures text { Gathers (W.contents writer.old) (W.contents writer.new) out.old out.new (event_line first.now ++ event_line second.now) result }
    ensures fault { IfErr result (λ f. IsMergeFault f) }
{
    match put_event(alloc, first, out, writer) {
        Ok(()) => {}
        Err(fault) => return Err(fault),
    }
    put_event(alloc, second, out, writer)
}

impl<R: Read> OwnJournal<R> {
    /// Gathers the line of the event that the next line says, if it says one. Mostly its text is there as it was read.
    fn put_said<W: Write>(
        &self,
        alloc: Global,
        out: &mut Gathered,
        writer: &mut W,
    ) -> Result<(), JournalsFault>
        ensures text { Gathers (W.contents writer.old) (W.contents writer.new) out.old out.new (flat_map event_line (said_next self.now.next)) result }
        ensures fault { IfErr result (λ f. IsMergeFault f) }
    {
        let Some(OwnLine::Does(event)) = &self.next else {
            return Ok(());
        };
        if self.spelled {
            put_line(self.piece.as_slice(), out, writer)
        } else {
            put_event(alloc, event, out, writer)
        }
    }

    /// Gathers the lines of the events by which the next line was taken.
    pub(crate) fn put_taken<W: Write>(
        &self,
        alloc: Global,
        taken: &Taken,
        out: &mut Gathered,
        writer: &mut W,
    ) -> Result<(), JournalsFault>
        ensures text { Gathers (W.contents writer.old) (W.contents writer.new) out.old out.new (flat_map event_line (told_by self.now taken.now)) result }
        ensures fault { IfErr result (λ f. IsMergeFault f) }
    {
        match *taken {
            Taken::Said => self.put_said(alloc, out, writer),
            Taken::Read(number) => put_event(alloc, &reading_by(&self.who, number), out, writer),
            Taken::Rose(true, age) => put_both(
                alloc,
                &Event::Fall(self.who),
                &Event::Rise(self.who, age),
                out,
                writer,
            ),
            Taken::Rose(false, age) => {
                put_event(alloc, &Event::Rise(self.who, age), out, writer)
            }
        }
    }
}

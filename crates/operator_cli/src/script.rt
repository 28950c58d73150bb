// The lines of a script, one after another.

ghost use Rattle.std.specs.Prelude.{◌≡◌, ◌∷◌, [], ◌||◌, IfOk, IfErr, OnOk};
ghost use Rattle.std.specs.Io.KnownBytes.{Keeps};
ghost use Rattle.line_streams.specs.Streams.{ReadsPiece, Grows, with_gathered, Puts};
ghost use Rattle.event_lines.specs.Faults.{line_fault_number};
ghost use Rattle.event_lines.specs.declared.words.TheConstants.{MAX_LINE_LEN};
ghost use Rattle.journal_audit.specs.Hearing.{with_words};
ghost use Rattle.operator_cli.specs.Hearing.{word_of, script_words, HearsAs};
ghost use Rattle.operator_cli.specs.Outputs.{Writes, IsCommonFault, told};
ghost use Rattle.operator_cli.specs.PartOutputs.{WritesAnswer, WritesLines, status_of};
ghost use Rattle.operator_cli.specs.Texts.{line_fault_text};

use crate::answers::answer_line;
use crate::lines::read_line;
use crate::texts::push_line_fault;
use crate::{LineFault, ServeFault};
use event_lines::{Line, MAX_LINE_LEN};
use journal_audit::Watcher;
use line_streams::{End, Gathered, LineReader, StreamFault};
use std::alloc::Global;
use std::io::{Read, Write};
use world_machine::World;

/// The status of a run in which something was refused, or nothing.
fn status_of(refused: bool) -> u8
    ensures { result ≡ status_of refused }
{
    if refused { 1 } else { 0 }
}

/// Whether either is.
fn either(a: bool, b: bool) -> bool
    ensures { result ≡ (a || b) }
{
    a || b
}

/// Gathers a text that is to be written.
fn put<W: Write>(out: &mut Gathered, writer: &mut W, text: &[u8]) -> Result<(), ServeFault>
    ensures text { Puts (with_gathered (W.contents writer.old) out.old) (with_gathered (W.contents writer.new) out.new) text.now result }
    ensures grows { Grows (W.contents writer.old) (W.contents writer.new) }
    ensures common { IfErr result IsCommonFault }
{
    match out.put(writer, text) {
        Ok(()) => Ok(()),
        Err(_) => Err(ServeFault::Write),
    }
}

/// Does what a line says and prints it; answers whether it was refused.
fn tell<W: Write, V: Watcher>(
    alloc: Global,
    world: &mut World,
    line: &Line,
    text: &mut String,
    out: &mut Gathered,
    writer: &mut W,
    watcher: &mut V,
) -> Result<bool, ServeFault>
    ensures told { WritesAnswer (told world.old line.now) (with_gathered (W.contents writer.old) out.old) (with_gathered (W.contents writer.new) out.new) result world.new }
    ensures heard { OnOk result (V.heard watcher.new ≡ with_words (word_of world.old line.now ∷ []) (V.heard watcher.old)) }
    ensures grows { Grows (W.contents writer.old) (W.contents writer.new) }
    ensures common { IfErr result IsCommonFault }
{
    text.clear();
    let refused = answer_line(alloc, world, line, text, watcher)?;
    put(out, writer, text.as_bytes())?;
    Ok(refused)
}

/// Prints that a line is bad, which is the end.
fn tell_fault<W: Write>(
    number: u64,
    fault: LineFault,
    text: &mut String,
    out: &mut Gathered,
    writer: &mut W,
) -> Result<u8, ServeFault>
    ensures told { Writes (record { text = line_fault_text number (line_fault_number fault); status = 1 }) (with_gathered (W.contents writer.old) out.old) (with_gathered (W.contents writer.new) out.new) result }
    ensures grows { Grows (W.contents writer.old) (W.contents writer.new) }
    ensures common { IfErr result IsCommonFault }
{
    text.clear();
    if push_line_fault(text, number, fault.number()).is_err() {
        return Err(ServeFault::Memory);
    }
    put(out, writer, text.as_bytes())?;
    Ok(1)
}

/// Lets out what is gathered, unless a whole line is held: else a person would wait for an answer,
/// and the program for the person.
fn let_out_before_reading<R: Read, W: Write>(
    source: &LineReader<R>,
    out: &mut Gathered,
    writer: &mut W,
) -> Result<(), ServeFault>
    ensures kept { Keeps (with_gathered (W.contents writer.old) out.old) (with_gathered (W.contents writer.new) out.new) }
    ensures grows { Grows (W.contents writer.old) (W.contents writer.new) }
    ensures common { IfErr result IsCommonFault }
{
    if source.has_line() {
        return Ok(());
    }
    match out.let_out(writer) {
        Ok(()) => Ok(()),
        Err(_) => Err(ServeFault::Write),
    }
}

/// Reads a line.
fn read_piece<R: Read>(source: &mut LineReader<R>, piece: &mut Vec<u8>) -> Result<End, ServeFault>
    ensures line { IfOk result (λ end. ReadsPiece MAX_LINE_LEN source.old source.new piece.new.items end) }
    ensures common { IfErr result IsCommonFault }
{
    match source.read_line(piece, MAX_LINE_LEN) {
        Ok(end) => Ok(end),
        Err(StreamFault::Memory) => Err(ServeFault::Memory),
        Err(_) => Err(ServeFault::Read),
    }
}

/// Reads the next line, and lets out before what is gathered if the reader has to be asked.
fn next_line<R: Read, W: Write>(
    source: &mut LineReader<R>,
    piece: &mut Vec<u8>,
    out: &mut Gathered,
    writer: &mut W,
) -> Result<End, ServeFault>
    ensures line { IfOk result (λ end. ReadsPiece MAX_LINE_LEN source.old source.new piece.new.items end) }
    ensures kept { Keeps (with_gathered (W.contents writer.old) out.old) (with_gathered (W.contents writer.new) out.new) }
    ensures grows { Grows (W.contents writer.old) (W.contents writer.new) }
    ensures common { IfErr result IsCommonFault }
{
    match let_out_before_reading(source, out, writer) {
        Ok(()) => read_piece(source, piece),
        Err(fault) => Err(fault),
    }
}

/// Does what the lines say and prints it, up to the end or to a bad line; answers the status. The watcher hears
/// what each line came to.
pub fn tell_lines<R: Read, W: Write, V: Watcher>(
    alloc: Global,
    world: &mut World,
    source: &mut LineReader<R>,
    out: &mut Gathered,
    writer: &mut W,
    watcher: &mut V,
) -> Result<u8, ServeFault>
    ensures told { WritesLines world.old source.old (with_gathered (W.contents writer.old) out.old) (with_gathered (W.contents writer.new) out.new) result }
    ensures heard { HearsAs (script_words world.old) source.old (V.heard watcher.old) (V.heard watcher.new) result }
    ensures grows { Grows (W.contents writer.old) (W.contents writer.new) }
    ensures common { IfErr result IsCommonFault }
{
    let mut piece = Vec::new(alloc);
    let mut text = String::new(alloc);
    let mut refused = false;
    for number in 1..u64::MAX {
        let end = match next_line(source, &mut piece, out, writer) {
            Ok(end) => end,
            Err(fault) => return Err(fault),
        };
        let bytes = piece.as_slice();
        if end.ends_no_line(bytes) {
            return Ok(status_of(refused));
        }
        let line = match read_line(bytes) {
            Ok(line) => line,
            Err(fault) => {
                watcher.see_bad(bytes, fault);
                return tell_fault(number, fault, &mut text, out, writer);
            }
        };
        let now_refused = match tell(alloc, world, &line, &mut text, out, writer, watcher) {
            Ok(now_refused) => now_refused,
            Err(fault) => return Err(fault),
        };
        refused = either(refused, now_refused);
        if end.is_last() {
            return Ok(status_of(refused));
        }
    }
    // So many lines never come: the reads run out long before.
    Err(ServeFault::Read)
}

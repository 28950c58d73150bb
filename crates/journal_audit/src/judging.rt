// The lines of a journal, one after another.

ghost use Rattle.std.specs.Prelude.{◌≡◌, ◌≢◌, [], IfOk, IfErr, OnErr};
ghost use Rattle.event_lines.specs.declared.words.TheConstants.{MAX_LINE_LEN};
ghost use Rattle.line_streams.specs.Streams.{ReadsPiece, TakesLine, FitsLimit, HasMore};
ghost use Rattle.journal_audit.specs.Hearing.{HearsLines};
ghost use Rattle.journal_audit.specs.Judging.{CutsShort, EndsLines, TakesLast};
ghost use Rattle.journal_audit.specs.Leavings.{Leaves};
ghost use Rattle.journal_audit.specs.Verdicts.{Finds};

use crate::{AuditFault, Cause, MAX_LINES, Verdict, Watcher};
use event_lines::laws::events_are_spelled_once;
use event_lines::{MAX_LINE_LEN, read_event};
use line_streams::{End, LineReader, StreamFault};
use std::alloc::Global;
use std::io::Read;
use world_machine::World;
use world_model::StepFault;
use world_model::laws::steps_change_one_part;

/// Reads the next line of a journal in place of what `piece` holds, without its line feed, and answers how
/// it ended. It takes no more than 129 bytes of a line, which show it too long.
///
/// # Errors
///
/// `Read` (816) where the reader fails or was asked as often as it may be, `Memory` (818), which leaves some
/// bytes. Then what was taken of the line is in `piece`.
pub fn read_piece<R: Read>(
    source: &mut LineReader<R>,
    piece: &mut Vec<u8>,
) -> Result<End, AuditFault>
    ensures line { IfOk result (λ end. ReadsPiece MAX_LINE_LEN source.old source.new piece.new.items end) }
    ensures fault { IfErr result CutsShort }
    ensures taken { TakesLine source.old source.new piece.new.items result }
    ensures few { FitsLimit MAX_LINE_LEN piece.new.items result }
    ensures more { IfErr result (λ e. e ≡ AuditFault.Memory → HasMore source.new) }
{
    match source.read_line(piece, MAX_LINE_LEN) {
        Ok(end) => Ok(end),
        Err(StreamFault::Memory) => Err(AuditFault::Memory),
        Err(_) => Err(AuditFault::Read),
    }
}

/// What is found of a journal where the world refuses the line of this number so.
///
/// # Errors
///
/// `Memory` (818): that memory was refused is no verdict on the line.
pub fn refused(number: u32, fault: StepFault) -> Result<Verdict, AuditFault>
    ensures verdict { IfOk result (λ v. (v ≡ Verdict.Unsound number (Cause.Refused fault)) × (fault ≢ StepFault.Memory)) }
    ensures memory { IfErr result (λ e. e ≡ AuditFault.Memory) }
    ensures wanting { OnErr result (fault ≡ StepFault.Memory) }
{
    match fault {
        StepFault::Memory => Err(AuditFault::Memory),
        _ => Ok(Verdict::Unsound(number, Cause::Refused(fault))),
    }
}

/// What is found of a journal of which `MAX_LINES` lines were taken: it looks for one more, for which it uses
/// `piece`. Where there is none, they are all.
///
/// # Errors
///
/// `TooManyLines` (819), and those of `read_piece`.
pub fn end_lines<R: Read>(
    source: &mut LineReader<R>,
    piece: &mut Vec<u8>,
) -> Result<Verdict, AuditFault>
    ensures lines { EndsLines source.old result }
    ensures fault { IfErr result (λ e. e ≢ AuditFault.Write) }
    ensures sound { IfOk result (λ v. v ≡ Verdict.Sound MAX_LINES) }
    ensures left { TakesLast source.old source.new result }
{
    let end = match read_piece(source, piece) {
        Ok(end) => end,
        Err(fault) => return Err(fault),
    };
    if end.ends_no_line(piece.as_slice()) {
        return Ok(Verdict::Sound(MAX_LINES));
    }
    Err(AuditFault::TooManyLines)
}

/// Takes the lines in the world, up to the end or to the first that is no event or is refused. A fault
/// is `Read`, `Memory` or `TooManyLines`, and comes before an unsound line: `Read` while a line is read,
/// `Memory` before the first one, while one is read, or for a step that would be taken. The watcher hears what
/// each line came to.
pub fn judge_lines<R: Read, V: Watcher>(
    alloc: Global,
    world: &mut World,
    source: &mut LineReader<R>,
    watcher: &mut V,
) -> Result<Verdict, AuditFault>
    requires { Unit {0} }
    ensures found { Finds world.old source.old result }
    ensures fault { IfErr result (λ e. e ≢ AuditFault.Write) }
    ensures left { Leaves world.old source.old source.new result }
    ensures heard { HearsLines world.old source.old (V.heard watcher.old) (V.heard watcher.new) result }
{
    events_are_spelled_once();
    steps_change_one_part();
    let Ok(mut piece) = Vec::with_capacity(alloc, MAX_LINE_LEN + 1) else {
        return Err(AuditFault::Memory);
    };
    for taken in 0..MAX_LINES {
        let end = match read_piece(source, &mut piece) {
            Ok(end) => end,
            Err(fault) => return Err(fault),
        };
        let line = piece.as_slice();
        if end.ends_no_line(line) {
            return Ok(Verdict::Sound(taken));
        }
        let event = match read_event(line) {
            Ok(event) => event,
            Err(fault) => {
                watcher.see_bad(line, fault);
                return Ok(Verdict::Unsound(taken + 1, Cause::Line(fault)));
            }
        };
        match world.step(&event) {
            Ok(effect) => watcher.see_event(world, &event, &Ok(effect)),
            Err(fault) => {
                watcher.see_event(world, &event, &Err(fault));
                return refused(taken + 1, fault);
            }
        }
        if end.is_last() {
            return Ok(Verdict::Sound(taken + 1));
        }
    }
    end_lines(source, &mut piece)
}

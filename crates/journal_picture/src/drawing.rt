// A journal, drawn line by line.

ghost use Rattle.std.specs.Prelude.{IfOk};
ghost use Rattle.journal_audit.specs.Leavings.{LeavesBy};
ghost use Rattle.journal_audit.specs.Verdicts.{Finds};
ghost use Rattle.run_picture.specs.Pictures.{opened};
ghost use Rattle.journal_picture.specs.Drawings.{found, found_beside, DrawsHistory, DrawsJournal};

use crate::Canvas;
use crate::ending::{Drawing, draw_end, draw_step};
use event_lines::laws::events_are_spelled_once;
use event_lines::{MAX_LINE_LEN, read_event};
use journal_audit::{AuditFault, Cause, MAX_LINES, Verdict, end_lines, read_piece, refused};
use line_streams::LineReader;
use run_picture::{Drawer, Lasting, Part};
use std::alloc::Global;
use std::io::Read;
use world_machine::World;
use world_model::laws::said_numbers_fit;

/// Draws the lines, up to the end or to the first that does not go on, and answers the drawer behind them,
/// and the verdict.
fn draw_steps<R: Read, C: Canvas>(
    alloc: Global,
    world: &mut World,
    drawer: Drawer,
    source: &mut LineReader<R>,
    canvas: &mut C,
) -> Result<(Drawer, Verdict), AuditFault>
    requires { Unit {0} }
    ensures verdict { Finds world.old source.old (found_beside result) }
    ensures drawn { DrawsHistory world.old drawer source.old (C.drawn canvas.old) (C.drawn canvas.new) world.new result }
    ensures left { IfOk result (λ r. LeavesBy world.old source.old source.new r.1) }
{
    events_are_spelled_once();
    said_numbers_fit();
    let mut drawer = drawer;
    let Ok(mut piece) = Vec::with_capacity(alloc, MAX_LINE_LEN + 1) else {
        return Err(AuditFault::Memory);
    };
    for taken in 0..MAX_LINES {
        let end = match read_piece(source, &mut piece) {
            Ok(end) => end,
            Err(fault) => return Err(fault),
        };
        let line = piece.as_slice();
        if end.ends_no_line(line) {
            return Ok((drawer, Verdict::Sound(taken)));
        }
        let event = match read_event(line) {
            Ok(event) => event,
            Err(fault) => {
                let verdict = Verdict::Unsound(taken + 1, Cause::Line(fault));
                return Ok((drawer, verdict));
            }
        };
        let effect = match world.step(&event) {
            Ok(effect) => effect,
            Err(fault) => match refused(taken + 1, fault) {
                Ok(verdict) => return Ok((drawer, verdict)),
                Err(fault) => return Err(fault),
            },
        };
        drawer = match draw_step(alloc, drawer, world, taken + 1, &event, &effect, canvas) {
            Ok(drawer) => drawer,
            Err(fault) => return Err(fault),
        };
        if end.is_last() {
            return Ok((drawer, Verdict::Sound(taken + 1)));
        }
    }
    match end_lines(source, &mut piece) {
        Ok(verdict) => Ok((drawer, verdict)),
        Err(fault) => Err(fault),
    }
}

/// Draws a part of what the lines that are left of an input do from this world on, in which this lasts.
///
/// It ends where an audit would, `journal_audit::audit_lines`, with the same verdict: at the end of the lines,
/// or at the first that is no event or is refused. The lines before that one are drawn, and then what
/// lasts still, what was said and never taken or heard, and the line that does not go on. What is left of
/// the input then is what an audit leaves that finds the same.
///
/// # Errors
///
/// `TooManyLines` (819), only where there are more lines than a journal may have; `Read` (816), `Write` (817),
/// `Memory` (818). When these come, and what was drawn and taken then, is not promised.
pub fn draw_lines<R: Read, C: Canvas>(
    alloc: Global,
    world: World,
    part: Part,
    lasting: &[Lasting],
    source: &mut LineReader<R>,
    canvas: &mut C,
) -> Result<Drawing, AuditFault>
    requires { Unit {0} }
    ensures verdict { Finds world source.old (found result) }
    ensures drawn { DrawsJournal world (opened part lasting.now) source.old (C.drawn canvas.old) (C.drawn canvas.new) result }
    ensures left { IfOk result (λ d. LeavesBy world source.old source.new d.verdict) }
{
    let mut world = world;
    let Ok(drawer) = Drawer::new(alloc, part, lasting) else {
        return Err(AuditFault::Memory);
    };
    match draw_steps(alloc, &mut world, drawer, source, canvas) {
        Ok((drawer, verdict)) => draw_end(alloc, &drawer, &world, verdict, canvas),
        Err(fault) => Err(fault),
    }
}

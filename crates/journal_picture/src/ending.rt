// The marks of a step and of the end, on a canvas.

ghost use Rattle.std.specs.Prelude.{◌≡◌, ◌∷◌, [], IfOk, IfErr, OnOk};
ghost use Rattle.std.specs.Option.{option_to_list};
ghost use Rattle.journal_audit.specs.Verdicts.{reaches};
ghost use Rattle.run_picture.specs.Pictures.{marks_of_step, after_step, end_place};
ghost use Rattle.world_model.specs.Laws.{SaidFits};
ghost use Rattle.journal_picture.specs.Histories.{with_more, told_of};
ghost use Rattle.journal_picture.specs.Drawings.{StopsShort, EndsWith, lost_marks, stop_marks, end_marks};

use crate::telling::told_of;
use crate::{Canvas, CanvasFault};
use journal_audit::{AuditFault, Cause, Verdict};
use run_picture::{DrawFault, Drawer, Mark, Place, Sign};
use std::alloc::Global;
use world_machine::World;
use world_model::{Effect, Event, MAX_MESSAGES};

/// What was drawn: the verdict on the journal, and where the picture ends.
#[derive(Clone, Copy, Debug, PartialEq, Eq)]
pub struct Drawing {
    pub verdict: Verdict,
    pub end: Place,
}

/// The fault of an audit that stands for one of a canvas.
fn canvas_fault(fault: CanvasFault) -> AuditFault
    ensures { StopsShort result }
{
    match fault {
        CanvasFault::Write => AuditFault::Write,
        CanvasFault::Memory => AuditFault::Memory,
    }
}

/// Draws a mark.
fn draw<C: Canvas>(canvas: &mut C, mark: &Mark) -> Result<(), AuditFault>
    ensures drawn { OnOk result (C.drawn canvas.new ≡ with_more (mark.now ∷ []) (C.drawn canvas.old)) }
    ensures fault { IfErr result StopsShort }
{
    match canvas.draw(mark) {
        Ok(()) => Ok(()),
        Err(fault) => Err(canvas_fault(fault)),
    }
}

/// Draws a mark, if there is one.
fn draw_some<C: Canvas>(canvas: &mut C, mark: Option<Mark>) -> Result<(), AuditFault>
    ensures drawn { OnOk result (C.drawn canvas.new ≡ with_more (option_to_list mark) (C.drawn canvas.old)) }
    ensures fault { IfErr result StopsShort }
{
    match &mark {
        Some(mark) => draw(canvas, mark),
        None => Ok(()),
    }
}

/// Draws marks, one after another.
fn draw_all<C: Canvas>(canvas: &mut C, marks: &[Mark]) -> Result<(), AuditFault>
    ensures drawn { OnOk result (C.drawn canvas.new ≡ with_more marks.now (C.drawn canvas.old)) }
    ensures fault { IfErr result StopsShort }
{
    for mark in marks {
        if let Err(fault) = draw(canvas, mark) {
            return Err(fault);
        }
    }
    Ok(())
}

/// The drawer behind a step, and the step's marks.
fn take(
    alloc: Global,
    drawer: Drawer,
    world: &World,
    line: u32,
    event: &Event,
    effect: &Effect,
) -> Result<(Drawer, Vec<Mark>), AuditFault>
    requires { SaidFits effect.now }
    ensures marks { IfOk result (λ r. r.1.items ≡ marks_of_step drawer (told_of world.now line event.now effect.now)) }
    ensures after { IfOk result (λ r. r.0 ≡ after_step drawer (told_of world.now line event.now effect.now)) }
    ensures fault { IfErr result StopsShort }
{
    let Ok(step) = told_of(alloc, world, line, event, effect) else {
        return Err(AuditFault::Memory);
    };
    // A picture has room for as many lines as a journal may have, so it is never full.
    match drawer.take(alloc, &step) {
        Ok(taken) => Ok(taken),
        Err(DrawFault::Full | DrawFault::Memory) => Err(AuditFault::Memory),
    }
}

/// Draws what an event did that was taken with this effect, in the world behind it.
pub(crate) fn draw_step<C: Canvas>(
    alloc: Global,
    drawer: Drawer,
    world: &World,
    line: u32,
    event: &Event,
    effect: &Effect,
    canvas: &mut C,
) -> Result<Drawer, AuditFault>
    requires { SaidFits effect.now }
    ensures drawn { OnOk result (C.drawn canvas.new ≡ with_more (marks_of_step drawer (told_of world.now line event.now effect.now)) (C.drawn canvas.old)) }
    ensures after { IfOk result (λ d. d ≡ after_step drawer (told_of world.now line event.now effect.now)) }
    ensures fault { IfErr result StopsShort }
{
    let (drawer, marks) = match take(alloc, drawer, world, line, event, effect) {
        Ok(taken) => taken,
        Err(fault) => return Err(fault),
    };
    match draw_all(canvas, marks.as_slice()) {
        Ok(()) => Ok(drawer),
        Err(fault) => Err(fault),
    }
}

/// Draws the messages that were lost.
fn draw_lost<C: Canvas>(drawer: &Drawer, world: &World, canvas: &mut C) -> Result<(), AuditFault>
    ensures drawn { OnOk result (C.drawn canvas.new ≡ with_more (lost_marks drawer.now world.now.sent) (C.drawn canvas.old)) }
    ensures fault { IfErr result StopsShort }
{
    // A world has no messages behind these numbers.
    world.soundness();
    for before in 0..MAX_MESSAGES {
        let number = before + 1;
        let Some(message) = world.sent(number) else {
            return Ok(());
        };
        if let Err(fault) = draw_some(canvas, drawer.lost(number, message)) {
            return Err(fault);
        }
    }
    Ok(())
}

/// The number of the last line that a verdict speaks of.
fn reached(verdict: &Verdict) -> u32
    ensures { result ≡ reaches verdict.now }
{
    match *verdict {
        Verdict::Sound(count) => count,
        Verdict::Unsound(number, _) => number,
    }
}

/// The mark of the line that does not go on, if there is one.
fn stop_mark(verdict: &Verdict, at: &Place) -> Option<Mark>
    ensures { option_to_list result ≡ stop_marks verdict.now at.now }
{
    let sign = match *verdict {
        Verdict::Sound(_) => return None,
        Verdict::Unsound(_, Cause::Line(fault)) => Sign::NoEvent(fault),
        Verdict::Unsound(_, Cause::Refused(fault)) => Sign::Refused(fault),
    };
    Some(Mark {
        sign,
        from: *at,
        upto: *at,
    })
}

/// Draws the marks of the end: what lasts still, what was lost, and the line that does not go on.
fn draw_last<C: Canvas>(
    alloc: Global,
    drawer: &Drawer,
    world: &World,
    verdict: &Verdict,
    canvas: &mut C,
) -> Result<Place, AuditFault>
    ensures drawn { OnOk result (C.drawn canvas.new ≡ with_more (end_marks drawer.now world.now.sent verdict.now) (C.drawn canvas.old)) }
    ensures end { IfOk result (λ p. p ≡ end_place drawer.now (reaches verdict.now)) }
    ensures fault { IfErr result StopsShort }
{
    let line = reached(verdict);
    let Ok(open) = drawer.open_marks(alloc, line) else {
        return Err(AuditFault::Memory);
    };
    if let Err(fault) = draw_all(canvas, open.as_slice()) {
        return Err(fault);
    }
    if let Err(fault) = draw_lost(drawer, world, canvas) {
        return Err(fault);
    }
    let end = drawer.place(line, false);
    match draw_some(canvas, stop_mark(verdict, &end)) {
        Ok(()) => Ok(end),
        Err(fault) => Err(fault),
    }
}

/// Ends the picture of a journal of which this is found.
pub(crate) fn draw_end<C: Canvas>(
    alloc: Global,
    drawer: &Drawer,
    world: &World,
    verdict: Verdict,
    canvas: &mut C,
) -> Result<Drawing, AuditFault>
    ensures found { EndsWith verdict result }
    ensures drawn { OnOk result (C.drawn canvas.new ≡ with_more (end_marks drawer.now world.now.sent verdict) (C.drawn canvas.old)) }
    ensures end { IfOk result (λ d. d.end ≡ end_place drawer.now (reaches verdict)) }
{
    match draw_last(alloc, drawer, world, &verdict, canvas) {
        Ok(end) => Ok(Drawing { verdict, end }),
        Err(fault) => Err(fault),
    }
}

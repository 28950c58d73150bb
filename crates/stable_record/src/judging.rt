// Judging tickets by the index.

ghost use Rattle.std.specs.Prelude.{◌≡◌};
ghost use Rattle.stable_record.specs.Lines.{admitted_beside, waits_by_line, alone_by_line, line_in, or_none};

use crate::tickets::is_writing;
use crate::{Entry, Line, Live, ResourceIndex};
use lock_messages::Mode;
use lock_model::Problem;

/// Whether a ticket in this mode is admitted beside those of a line.
fn admitted_beside(problem: Problem, mode: Mode, line: &Line) -> bool
    ensures { result ≡ admitted_beside problem mode line.now }
{
    match mode {
        Mode::Write => !(line.holders() > 0),
        Mode::Read => {
            problem.admits_reader(line.has_writing_holder(), line.waiting_writers() > 0)
        }
    }
}

/// Whether the ticket would be admitted, by what is known of its resource.
fn is_admitted(index: &ResourceIndex, problem: Problem, live: &Live) -> bool
    ensures { result ≡ admitted_beside problem live.now.mode (or_none (line_in index.now live.now.resource)) }
{
    match index.line(&live.resource) {
        None => true,
        Some(line) => admitted_beside(problem, live.mode, line),
    }
}

/// Whether the ticket doesn't wait, or has to.
pub(crate) fn has_cause(index: &ResourceIndex, problem: Problem, entry: &Entry) -> bool
    ensures { result ≡ waits_by_line problem index.now entry.now.live }
{
    match &entry.live {
        None => true,
        Some(live) => !live.waits() || !is_admitted(index, problem, live),
    }
}

/// How many hold the ticket's resource.
fn holders_beside(index: &ResourceIndex, live: &Live) -> usize
    ensures { result ≡ (or_none (line_in index.now live.now.resource)).holders }
{
    match index.line(&live.resource) {
        None => 0,
        Some(line) => line.holders(),
    }
}

/// Whether the ticket isn't a writer's that holds, or is the only one that holds its resource.
pub(crate) fn leaves_alone(index: &ResourceIndex, entry: &Entry) -> bool
    ensures { result ≡ alone_by_line index.now entry.now.live }
{
    match &entry.live {
        None => true,
        Some(live) => !is_writing(live) || holders_beside(index, live) == 1,
    }
}

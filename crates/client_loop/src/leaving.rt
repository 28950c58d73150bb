// Leaving: it is logged, and the nodes that were asked are told, until each has answered or is gone.

ghost use Rattle.std.specs.Prelude.{◌≡◌, ◌⊎◌, true, OnOk, OnErr, IfErr};
ghost use Rattle.client_core.specs.Clients.{phase_of};
ghost use Rattle.client_core.specs.declared.phases.Phase.TheVariants as phase;
ghost use Rattle.client_loop.specs.Sendings.{sent_of, SentFollows, SentUnlessMemory};
ghost use Rattle.client_loop.specs.Standing.{Stands, HasLeft, IsSameClient};
ghost use Rattle.client_loop.specs.Remembering.{core_of, asked_of, busy_of, most_of, HasHadLast, HasReleased};
ghost use Rattle.client_loop.specs.Endings.{EndsAsking, IsAskFault};
ghost use Rattle.client_loop.specs.Outcomes.{moment, answers, Leaving};
ghost use Rattle.client_loop.specs.Visits.{GoesOnQuietly, visits_of};
ghost use Rattle.actor_steps.specs.Steps.{IsBookFault};
ghost use Rattle.actor_steps.specs.Endings.{falls_of};
ghost use Rattle.event_recorders.specs.OwnLogs.{FindsItsOwn, part_now};
ghost use Rattle.client_loop.specs.Talking.{EndsUnlogged, LeavesSilently};

use crate::ending::end;
use crate::progress::Progress;
use crate::releasing::release;
use actor_steps::log_plain;
use client_core::ClientCore;
use event_recorders::{OwnRecord, Recorder, RunFault};
use lossy_link::Link;
use std::alloc::Global;
use std::sync::Wait;
use world_model::Event;

/// Logs that the client has left, or has given up asking.
#[tactic(auto, using(crate::proofs::SentFacts::leave_sends_nothing))]
pub(crate) fn log_leave<S: OwnRecord, R: Recorder>(
    core: &ClientCore,
    stable: &S,
    recorder: &mut R,
) -> Result<(), RunFault>
    requires { HasLeft (R.own_log recorder.old) (S.StableRecord.finds stable.now) core.now }
    ensures outside { OnOk result (Stands (R.own_log recorder.new) (S.StableRecord.finds stable.now) core.now) }
    ensures still { LeavesSilently (R.own_log recorder.old) (R.own_log recorder.new) }
    ensures ended { IfErr result (λ f. EndsUnlogged f (R.own_log recorder.old) (R.own_log recorder.new)) }
{
    log_plain(recorder, Event::Leave(core.client()), stable)?;
    Ok(())
}

/// Leaves: logs that the client has left, and says its release to each node that it asked, until each has
/// answered or is gone. On a nudge of such a node it says it again.
///
/// The caller owes a core that has left, where the client's own log has it asking or inside still, and that a
/// restart finds in the record what the client keeps.
///
/// # Errors
///
/// The attempt had its last nudge (913), and then the client rests, and has said its release once more to each
/// asked node that isn't gone (that last is tested); memory was refused (914), or the book is full or another's (915).
#[tactic(auto, using(crate::proofs::Steps::leaving))]
pub fn leave<W: Wait, S: OwnRecord, R: Recorder, L: Link>(
    rt: &W,
    alloc: Global,
    progress: &mut Progress,
    stable: &S,
    recorder: &mut R,
    link: &mut L,
) -> Result<(), RunFault>
    requires { HasLeft (R.own_log recorder.old) (S.StableRecord.finds stable.now) (core_of progress.old) }
    ensures { let kept = answers (S.StableRecord.finds stable.now) (S.StableRecord.stuck_of stable.now) (S.StableRecord.spent_of stable.now) (S.StableRecord.failures_of stable.now) in
        let before = moment progress.old (R.own_log recorder.old) kept (L.given link.old) in
        let after = moment progress.new (R.own_log recorder.new) kept (L.given link.new) in
        Leaving result before after }
{
    log_leave(&progress.core, stable, recorder)?;
    match release(rt, alloc, progress, stable, recorder, link) {
        Ok(()) => Ok(()),
        Err(fault) => Err(end(alloc, fault, progress, stable, recorder, link)),
    }
}

// Giving up a wish.

ghost use Rattle.std.specs.Prelude.{◌≡◌, ◌⊎◌, OnOk, IfErr};
ghost use Rattle.client_loop.specs.Sendings.{SendsBy, SentFollows, SentUnlessMemory, EndsHere};
ghost use Rattle.client_loop.specs.Standing.{Stands};
ghost use Rattle.client_loop.specs.Visits.{GoesOnQuietly, visits_of};
ghost use Rattle.client_core.specs.Clients.{phase_of};
ghost use Rattle.client_core.specs.declared.phases.Phase.TheVariants as phase;
ghost use Rattle.event_recorders.specs.OwnLogs.{part_now, FindsItsOwn};
ghost use Rattle.client_loop.specs.Endings.{IsAskFault, EndsAsking, EndsOneAttempt};
ghost use Rattle.actor_steps.specs.Steps.{IsBookFault};
ghost use Rattle.actor_steps.specs.Endings.{falls_of};
ghost use Rattle.client_loop.specs.Attempting.{GivesUp, StandsOutside, EndsInstead};

use crate::leaving::log_leave;
use crate::progress::Progress;
use crate::releasing::tell_releases;
use client_core::Phase;
use event_recorders::{OwnRecord, Recorder, RunFault};
use lossy_link::Link;
use std::alloc::Global;

/// Leaves, where the client asks, and says the release once to each node that was asked and isn't gone.
#[tactic(auto, using(crate::proofs::Steps::giving_up))]
fn give_up<S: OwnRecord, R: Recorder, L: Link>(
    alloc: Global,
    progress: &mut Progress,
    stable: &S,
    recorder: &mut R,
    link: &mut L,
) -> Result<(), RunFault>
    requires stands { Stands (R.own_log recorder.old) (S.StableRecord.finds stable.now) progress.old.core }
    requires phase { (phase_of progress.old.core ≡ phase.Asking) ⊎ (phase_of progress.old.core ≡ phase.Idle) }
    ensures sent { SendsBy result (R.own_log recorder.old) (R.own_log recorder.new) (L.given link.old) (L.given link.new) }
    ensures gives_up { GivesUp (R.own_log recorder.old) (R.own_log recorder.new) (S.StableRecord.finds stable.now) progress.old progress.new }
    ensures idle { phase_of progress.new.core ≡ phase.Idle }
    ensures rests { OnOk result (StandsOutside (R.own_log recorder.new) (S.StableRecord.finds stable.now) progress.new.core) }
    ensures faults { IfErr result IsBookFault }
{
    if let Phase::Asking = progress.core.phase() {
        progress.core.leave();
        log_leave(&progress.core, stable, recorder)?;
    }
    tell_releases(alloc, progress, stable, recorder, link)
}

/// Ends the attempt by the fault: a client that has too few nodes left, or gave up, takes back what it asked
/// for, and rests. Should that fail, it ends by the later fault.
#[tactic(auto, using(crate::proofs::SentFacts::unless_follows, crate::proofs::SentFacts::unless_none, crate::proofs::FindingFacts::stands_own))]
pub(crate) fn end<S: OwnRecord, R: Recorder, L: Link>(
    alloc: Global,
    fault: RunFault,
    progress: &mut Progress,
    stable: &S,
    recorder: &mut R,
    link: &mut L,
) -> RunFault
    requires stands { Stands (R.own_log recorder.old) (S.StableRecord.finds stable.now) progress.old.core }
    requires phase { (phase_of progress.old.core ≡ phase.Asking) ⊎ (phase_of progress.old.core ≡ phase.Idle) }
    requires fault { IsAskFault fault }
    ensures faulted { SentUnlessMemory result (R.own_log recorder.old) (R.own_log recorder.new) (L.given link.old) (L.given link.new) }
    ensures memory { fault ≡ RunFault.Memory → EndsHere result (R.own_log recorder.old) (R.own_log recorder.new) (L.given link.old) (L.given link.new) }
    ensures gives_up { GivesUp (R.own_log recorder.old) (R.own_log recorder.new) (S.StableRecord.finds stable.now) progress.old progress.new }
    ensures ended { EndsInstead fault result (R.own_log recorder.new) (S.StableRecord.finds stable.now) progress.new.core }
    ensures idle { phase_of progress.old.core ≡ phase.Idle → phase_of progress.new.core ≡ phase.Idle }
{
    match fault {
        RunFault::TooFewNodes | RunFault::GaveUp => {
            match give_up(alloc, progress, stable, recorder, link) {
                Ok(()) => fault,
                Err(later) => later,
            }
        }
        RunFault::NotReopened | RunFault::Memory | RunFault::Book | RunFault::Spent => fault,
    }
}

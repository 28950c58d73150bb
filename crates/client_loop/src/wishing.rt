// One wish, from its attempt to its release.

ghost use Rattle.std.specs.Prelude.{◌≡◌, ◌<◌, OnOk, false, Some, IfErr};
ghost use Rattle.lock_model.specs.Ballots.{HasPlace};
ghost use Rattle.client_core.specs.Clients.{phase_of};
ghost use Rattle.client_core.specs.declared.phases.Phase.TheVariants as phase;
ghost use Rattle.client_loop.specs.Sendings.{SendsBy, SentFollows, SentUnlessMemory};
ghost use Rattle.client_loop.specs.Standing.{Stands};
ghost use Rattle.actor_steps.specs.Endings.{falls_of, FailuresFollow};
ghost use Rattle.client_loop.specs.Remembering.{most_of, HasHadLast};
ghost use Rattle.client_loop.specs.Endings.{ClientEndsFrom};
ghost use Rattle.client_loop.specs.Visits.{visits_of, tally, AddsUse, AddsAtMost, BeginsOnly, softens, use_of};
ghost use Rattle.event_recorders.specs.OwnLogs.{FindsItsOwn, part_now};
ghost use Rattle.client_loop.specs.Attempting.{WorksFor, HasFulfilled, EndsFulfilling, RecordAgrees};

use crate::entering::enter;
use crate::leaving::leave;
use crate::progress::{MAX_NUDGES, Patience, Progress};
use crate::staying::stay;
use event_lines::{MAX_WISHES, Wish};
use event_recorders::{Gate, OwnRecord, Recorder, RunFault};
use lossy_link::Link;
use std::alloc::Global;
use std::sync::Wait;

/// Fulfils the wish: enters, is inside by a guard for as long as the gate keeps it, and leaves. The entering is
/// counted, also where the client ends by a fault after it. A wish may have `MAX_NUDGES` nudges.
#[tactic(auto, using(crate::proofs::Steps::fulfilling))]
pub(crate) fn fulfil<W: Wait, S: OwnRecord, R: Recorder, L: Link, G: Gate>(
    rt: &W,
    alloc: Global,
    wish: &Wish,
    progress: &mut Progress,
    entered: &mut u32,
    stable: &mut S,
    recorder: &mut R,
    link: &mut L,
    gate: &G,
) -> Result<(), RunFault>
    requires stands { Stands (R.own_log recorder.old) (S.StableRecord.finds stable.old) progress.old.core }
    requires free { S.StableRecord.stuck_of stable.old ≡ false }
    requires idle { phase_of progress.old.core ≡ phase.Idle }
    requires room { entered.old < MAX_WISHES }
    requires placed { HasPlace (R.own_log recorder.old).ballots wish.now.place }
    ensures sent { SendsBy result (R.own_log recorder.old) (R.own_log recorder.new) (L.given link.old) (L.given link.new) }
    ensures works { WorksFor wish.now (tally entered.old (R.own_log recorder.old)) (tally entered.new (R.own_log recorder.new)) (R.own_log recorder.old) (R.own_log recorder.new) progress.new }
    ensures fulfilled { OnOk result (HasFulfilled wish.now (tally entered.old (R.own_log recorder.old)) (tally entered.new (R.own_log recorder.new)) (R.own_log recorder.new) (S.StableRecord.finds stable.new) (S.StableRecord.stuck_of stable.new) progress.new.core) }
    ensures agrees { RecordAgrees (falls_of (R.own_log recorder.old)) (R.own_log recorder.new) (S.StableRecord.finds stable.new) (S.StableRecord.failures_of stable.old) (S.StableRecord.failures_of stable.new) }
    ensures ended { IfErr result (λ f. EndsFulfilling f (falls_of (R.own_log recorder.old)) (R.own_log recorder.new) (S.StableRecord.stuck_of stable.new) (S.StableRecord.spent_of stable.new) (S.StableRecord.failures_of stable.old) (S.StableRecord.failures_of stable.new) progress.new) }
{
    let patience = Patience {
        nudges: MAX_NUDGES,
        waits: true,
    };
    if !enter(
        rt, alloc, wish, patience, progress, stable, recorder, link, gate,
    )? {
        unreachable!()
    }
    *entered += 1;
    let stable = &*stable;
    let granted = progress.granted;
    stay(
        alloc,
        wish,
        granted,
        &mut progress.core,
        stable,
        recorder,
        link,
        gate,
    )?;
    leave(rt, alloc, progress, stable, recorder, link)
}

// Making an attempt: its number is chosen, and kept before it is used.

ghost use Rattle.std.specs.Prelude.{◌≡◌, ◌+◌, OnOk, IfErr, IfSome, true, false, Some, Ok};
ghost use Rattle.lock_model.specs.Ballots.{HasPlace};
ghost use Rattle.client_core.specs.Clients.{phase_of, ticket_of};
ghost use Rattle.client_core.specs.declared.phases.Phase.TheVariants as phase;
ghost use Rattle.client_loop.specs.Sendings.{sent_of};
ghost use Rattle.client_loop.specs.Standing.{Stands, HasChosen, HasTried};
ghost use Rattle.actor_steps.specs.Endings.{falls_of, FailuresFollow};
ghost use Rattle.client_loop.specs.Endings.{ClientEndsFrom, IsAttemptFault, IsAtRest};
ghost use Rattle.client_loop.specs.Visits.{visits_of, use_of, AsksFor, BeginsOnly, BeginsMore};
ghost use Rattle.event_recorders.specs.OwnLogs.{FindsItsOwn, part_now};
ghost use Rattle.client_loop.specs.Attempting.{BeginsUpright, ChoosesFor, AgreesSilently, AttemptsSilently, EndsAttempting, AsksWith, AsksForUse};

use crate::progress::Progress;
use actor_steps::{Keeping, keep_next, log_plain, rise_again};
use client_core::{ClientCore, ClientFault};
use event_lines::Wish;
use event_recorders::laws::records_fit;
use event_recorders::{Gate, OwnRecord, Recorder, RunFault};
use lock_messages::Actor;
use stable_record::{client_bytes, read_client};
use std::sync::Wait;
use world_model::Event;

/// Chooses the next attempt, for the wish. 916: none is left.
#[tactic(auto, using(crate::proofs::Steps::choosing))]
fn begin<S: OwnRecord, R: Recorder>(
    core: &mut ClientCore,
    wish: &Wish,
    stable: &S,
    recorder: &mut R,
) -> Result<(), RunFault>
    requires stands { Stands (R.own_log recorder.old) (S.StableRecord.finds stable.now) core.old }
    requires idle { phase_of core.old ≡ phase.Idle }
    requires free { S.StableRecord.stuck_of stable.now ≡ false }
    requires placed { HasPlace (R.own_log recorder.old).ballots wish.now.place }
    ensures chooses { OnOk result (ChoosesFor (use_of wish.now) (R.own_log recorder.old) (R.own_log recorder.new) (S.StableRecord.finds stable.now) core.new) }
    ensures goes_on { BeginsUpright (use_of wish.now) (R.own_log recorder.old) (R.own_log recorder.new) (S.StableRecord.finds stable.now) }
    ensures ended { IfErr result (λ f. EndsAttempting f (falls_of (R.own_log recorder.old)) (R.own_log recorder.new) (S.StableRecord.stuck_of stable.now) (S.StableRecord.spent_of stable.now) (S.StableRecord.failures_of stable.now) (S.StableRecord.failures_of stable.now)) }
{
    let Wish {
        mode,
        resource,
        place,
        ..
    } = *wish;
    let resource = &resource;
    match core.begin(*resource, mode, place) {
        Ok(_) => {}
        Err(ClientFault::AttemptsSpent) => return Err(RunFault::Spent),
        Err(ClientFault::NotIdle | ClientFault::NoSuchPlace) => unreachable!(),
    }
    log_plain(
        recorder,
        Event::Begin(core.client(), mode, *resource, place),
        stable,
    )?;
    Ok(())
}

/// Rises again with the attempt that the record holds, after it failed to keep the chosen one.
#[tactic(auto, using(crate::proofs::Steps::rising))]
fn rise_anew<S: OwnRecord, R: Recorder>(
    core: &mut ClientCore,
    stable: &mut S,
    recorder: &mut R,
) -> Result<(), RunFault>
    requires { HasTried (R.own_log recorder.old) (S.StableRecord.finds stable.old) core.old }
    ensures rests { OnOk result (IsAtRest (R.own_log recorder.new) (S.StableRecord.finds stable.new) (S.StableRecord.stuck_of stable.new) core.new) }
    ensures goes_on { AgreesSilently (falls_of (R.own_log recorder.old) + 1) (R.own_log recorder.old) (R.own_log recorder.new) (S.StableRecord.finds stable.new) (S.StableRecord.failures_of stable.old) (S.StableRecord.failures_of stable.new) }
    ensures ended { IfErr result (λ f. EndsAttempting f (falls_of (R.own_log recorder.old) + 1) (R.own_log recorder.new) (S.StableRecord.stuck_of stable.new) (S.StableRecord.spent_of stable.new) (S.StableRecord.failures_of stable.old) (S.StableRecord.failures_of stable.new)) }
{
    let bytes = client_bytes(core.attempt());
    let found = rise_again(Actor::Client(core.client()), &bytes, stable, recorder)?;
    let Ok(attempt) = read_client(found.as_slice()) else {
        unreachable!()
    };
    core.restart(attempt);
    Ok(())
}

/// Keeps the chosen attempt, with which the client then asks. Whether it was kept; where the record
/// failed, the client has risen again.
#[tactic(auto, using(crate::proofs::Steps::keeping))]
fn keep_chosen<S: OwnRecord, R: Recorder, G: Gate>(
    core: &mut ClientCore,
    stable: &mut S,
    recorder: &mut R,
    gate: &G,
) -> Result<bool, RunFault>
    requires chosen { HasChosen (R.own_log recorder.old) (S.StableRecord.finds stable.old) core.old }
    requires free { S.StableRecord.stuck_of stable.old ≡ false }
    ensures kept { result ≡ Ok true → AsksWith (ticket_of core.old) (R.own_log recorder.new) (S.StableRecord.finds stable.new) (S.StableRecord.stuck_of stable.new) core.new }
    ensures failed { result ≡ Ok false → IsAtRest (R.own_log recorder.new) (S.StableRecord.finds stable.new) (S.StableRecord.stuck_of stable.new) core.new }
    ensures goes_on { AgreesSilently (falls_of (R.own_log recorder.old)) (R.own_log recorder.old) (R.own_log recorder.new) (S.StableRecord.finds stable.new) (S.StableRecord.failures_of stable.old) (S.StableRecord.failures_of stable.new) }
    ensures ended { IfErr result (λ f. EndsAttempting f (falls_of (R.own_log recorder.old)) (R.own_log recorder.new) (S.StableRecord.stuck_of stable.new) (S.StableRecord.spent_of stable.new) (S.StableRecord.failures_of stable.old) (S.StableRecord.failures_of stable.new)) }
{
    records_fit();
    let bytes = client_bytes(core.attempt());
    let keeping = keep_next(Actor::Client(core.client()), &bytes, stable, recorder, gate)?;
    match keeping {
        Keeping::Kept => {
            core.kept();
            Ok(true)
        }
        Keeping::Failed => {
            rise_anew(core, stable, recorder)?;
            Ok(false)
        }
    }
}

/// Makes the next attempt for the wish, and once more for as long as the record fails. The nodes that
/// are gone are skipped in it.
#[tactic(auto, using(crate::proofs::Steps::attempting))]
pub(crate) fn attempt<W: Wait, S: OwnRecord, R: Recorder, G: Gate>(
    rt: &W,
    wish: &Wish,
    progress: &mut Progress,
    stable: &mut S,
    recorder: &mut R,
    gate: &G,
) -> Result<(), RunFault>
    requires stands { Stands (R.own_log recorder.old) (S.StableRecord.finds stable.old) progress.old.core }
    requires free { S.StableRecord.stuck_of stable.old ≡ false }
    requires idle { phase_of progress.old.core ≡ phase.Idle }
    requires placed { HasPlace (R.own_log recorder.old).ballots wish.now.place }
    ensures asks { OnOk result (AsksForUse (use_of wish.now) (R.own_log recorder.old) (R.own_log recorder.new) (S.StableRecord.finds stable.new) (S.StableRecord.stuck_of stable.new) progress.new.core) }
    ensures goes_on { AttemptsSilently (use_of wish.now) (R.own_log recorder.old) (R.own_log recorder.new) (S.StableRecord.finds stable.new) (S.StableRecord.failures_of stable.old) (S.StableRecord.failures_of stable.new) }
    ensures most { progress.new.most_nudges ≡ progress.old.most_nudges }
    ensures ended { IfErr result (λ f. EndsAttempting f (falls_of (R.own_log recorder.old)) (R.own_log recorder.new) (S.StableRecord.stuck_of stable.new) (S.StableRecord.spent_of stable.new) (S.StableRecord.failures_of stable.old) (S.StableRecord.failures_of stable.new)) }
{
    for _ in rt.forever() {
        begin(&mut progress.core, wish, &*stable, recorder)?;
        if keep_chosen(&mut progress.core, stable, recorder, gate)? {
            progress.skip_gone();
            return Ok(());
        }
    }
    unreachable!()
}

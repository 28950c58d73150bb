// Softening: a writer that is inside goes on as a reader.

ghost use Rattle.std.specs.Prelude.{◌≡◌, ◌⊎◌, None, OnOk, OnErr, IfErr, if◌then◌else◌};
ghost use Rattle.lock_messages.specs.declared.tickets.Mode.TheVariants.{Write};
ghost use Rattle.vote_weights.specs.Sets.{has_node};
ghost use Rattle.client_core.specs.Clients.{ticket_of, softened_ticket};
ghost use Rattle.client_core.specs.Calls.{MaySoften, softened, SoftensAll, message_for};
ghost use Rattle.entry_guard.specs.Doors.{is_client_inside};
ghost use Rattle.entry_guard.specs.Guards.{door_of, lender_of, guard_ticket, IsHeld};
ghost use Rattle.client_loop.specs.Sendings.{SendsBy, sent_of, SentFollows, SentUnlessMemory, Tells, TellsSoftened};
ghost use Rattle.client_loop.specs.Standing.{Stands, IsSameClient};
ghost use Rattle.client_loop.specs.Outcomes.{moment, answers, Softening};
ghost use Rattle.client_loop.specs.Remembering.{core_of, with_core, granted_of};
ghost use Rattle.actor_steps.specs.Steps.{IsBookFault};
ghost use Rattle.actor_steps.specs.Endings.{falls_of};
ghost use Rattle.client_loop.specs.Visits.{GoesOnQuietly, visits_of, visits_softening};
ghost use Rattle.event_recorders.specs.OwnLogs.{FindsItsOwn, part_now};
ghost use Rattle.client_loop.specs.Talking.{Says, EndsUnlogged, GoesOnSoftened, IsSoftened, SoftensGuard, EndsSofteningGuard, HasNotFallen};

use crate::progress::Progress;
use crate::talking::tell;
use actor_steps::log_plain;
use client_core::ClientCore;
use entry_guard::EntryGuard;
use event_recorders::{OwnRecord, Recorder, RunFault};
use lock_messages::NodeId;
use lossy_link::Link;
use std::alloc::Global;
use vote_weights::NodeSet;
use world_model::Event;

/// Says to the node what the client has to say to it, where it is of the set.
#[tactic(auto, using(crate::proofs::TalkFacts::talks_still))]
fn tell_if_granted<S: OwnRecord, R: Recorder, L: Link>(
    alloc: Global,
    core: &ClientCore,
    granted: NodeSet,
    node: NodeId,
    stable: &S,
    recorder: &mut R,
    link: &mut L,
) -> Result<(), RunFault>
    requires { Stands (R.own_log recorder.old) (S.StableRecord.finds stable.now) core.now }
    ensures told { OnOk result (Tells (if has_node granted node then message_for core.now node else None) node (R.own_log recorder.old) (R.own_log recorder.new)) }
    ensures says { Says result (R.own_log recorder.old) (R.own_log recorder.new) (L.given link.old) (L.given link.new) (S.StableRecord.finds stable.now) core.now }
{
    if !granted.has(node) {
        return Ok(());
    }
    tell(alloc, core, node, stable, recorder, link)
}

/// Says to each node of the set, once, that the client has softened.
#[tactic(auto, using(crate::proofs::Steps::talking))]
fn tell_granted<S: OwnRecord, R: Recorder, L: Link>(
    alloc: Global,
    core: &ClientCore,
    granted: NodeSet,
    stable: &S,
    recorder: &mut R,
    link: &mut L,
) -> Result<(), RunFault>
    requires stands { Stands (R.own_log recorder.old) (S.StableRecord.finds stable.now) core.now }
    requires softened { SoftensAll core.now core.now.attempt }
    ensures told { OnOk result (TellsSoftened core.now granted (R.own_log recorder.old) (R.own_log recorder.new)) }
    ensures says { Says result (R.own_log recorder.old) (R.own_log recorder.new) (L.given link.old) (L.given link.new) (S.StableRecord.finds stable.now) core.now }
{
    for number in 1..core.ballots().nodes() + 1 {
        let Some(node) = NodeId::of(number) else {
            unreachable!()
        };
        tell_if_granted(alloc, core, granted, node, stable, recorder, link)?;
    }
    Ok(())
}

/// Logs that the client that is inside as a writer is a reader from now on.
#[tactic(auto, using(crate::proofs::SentFacts::soften_sends_nothing))]
fn log_soften<S: OwnRecord, R: Recorder>(
    core: &ClientCore,
    stable: &S,
    recorder: &mut R,
) -> Result<(), RunFault>
    requires may { MaySoften core.now }
    requires stands { Stands (R.own_log recorder.old) (S.StableRecord.finds stable.now) core.now }
    ensures softened { OnOk result (IsSoftened (R.own_log recorder.old) (R.own_log recorder.new) (S.StableRecord.finds stable.now) core.now) }
    ensures silent { GoesOnSoftened (R.own_log recorder.old) (R.own_log recorder.new) }
    ensures ended { IfErr result (λ f. EndsUnlogged f (R.own_log recorder.old) (R.own_log recorder.new)) }
{
    log_plain(recorder, Event::Soften(core.client()), stable)?;
    Ok(())
}

/// Softens: logs that the client that is inside as a writer is a reader from now on, and says it once to each
/// node whose vote was counted. It waits for no answer.
///
/// The caller owes a core that is inside as a writer, as the client's own log has it, and that a restart finds
/// in the record what the client keeps.
///
/// # Errors
///
/// Memory was refused (914), or the book is full or another's (915). The client is still inside then, as its
/// core is: as a reader where the Soften was logged, else as a writer.
#[tactic(auto, using(crate::proofs::BeginFacts::still_client, crate::proofs::BeginFacts::softening_client, crate::proofs::SentFacts::unless_none, crate::proofs::SentFacts::unless_from))]
pub fn soften<S: OwnRecord, R: Recorder, L: Link>(
    alloc: Global,
    progress: &mut Progress,
    stable: &S,
    recorder: &mut R,
    link: &mut L,
) -> Result<(), RunFault>
    requires may { MaySoften (core_of progress.old) }
    requires stands { Stands (R.own_log recorder.old) (S.StableRecord.finds stable.now) (core_of progress.old) }
    ensures { let kept = answers (S.StableRecord.finds stable.now) (S.StableRecord.stuck_of stable.now) (S.StableRecord.spent_of stable.now) (S.StableRecord.failures_of stable.now) in
        let before = moment progress.old (R.own_log recorder.old) kept (L.given link.old) in
        let after = moment progress.new (R.own_log recorder.new) kept (L.given link.new) in
        Softening result before after }
{
    log_soften(&progress.core, stable, recorder)?;
    progress.core.soften();
    let granted = progress.granted;
    tell_granted(alloc, &progress.core, granted, stable, recorder, link)
}

/// Softens what the guard has entered: logs it, softens the guard, and says it to each node of the set.
#[tactic(auto, using(crate::proofs::FindingFacts::stands_own, crate::proofs::FindingFacts::stands_still, crate::proofs::SentFacts::unless_none, crate::proofs::SentFacts::unless_from))]
pub(crate) fn soften_guard<S: OwnRecord, R: Recorder, L: Link>(
    alloc: Global,
    granted: NodeSet,
    guard: &mut EntryGuard<'_, ClientCore>,
    stable: &S,
    recorder: &mut R,
    link: &mut L,
) -> Result<(), RunFault>
    requires held { IsHeld is_client_inside ticket_of guard.old }
    requires writes { (guard_ticket guard.old).mode ≡ Write }
    requires stands { Stands (R.own_log recorder.old) (S.StableRecord.finds stable.now) (door_of guard.old) }
    ensures held { IsHeld is_client_inside ticket_of guard.new }
    ensures lender { lender_of guard.new ≡ lender_of guard.old }
    ensures sent { SendsBy result (R.own_log recorder.old) (R.own_log recorder.new) (L.given link.old) (L.given link.new) }
    ensures softens { OnOk result (SoftensGuard granted (R.own_log recorder.old) (R.own_log recorder.new) (S.StableRecord.finds stable.now) (door_of guard.old) (door_of guard.new) (guard_ticket guard.old) (guard_ticket guard.new)) }
    ensures ended { IfErr result (λ f. EndsSofteningGuard f (R.own_log recorder.old) (R.own_log recorder.new) (guard_ticket guard.old) (guard_ticket guard.new)) }
    ensures up { HasNotFallen (R.own_log recorder.old) (R.own_log recorder.new) (S.StableRecord.finds stable.now) }
{
    log_soften(guard.door(), stable, recorder)?;
    guard.soften();
    tell_granted(alloc, guard.door(), granted, stable, recorder, link)
}

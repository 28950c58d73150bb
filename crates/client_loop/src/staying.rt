// Being inside.

ghost use Rattle.std.specs.Prelude.{◌≡◌, ◌⊎◌, OnOk, OnErr, IfErr, IfSome};
ghost use Rattle.client_core.specs.Clients.{ticket_of};
ghost use Rattle.client_core.specs.Calls.{MayEnter, entered as inside_of};
ghost use Rattle.client_loop.specs.Sendings.{SendsBy, SentFollows, SentUnlessMemory, TellsSoftenedIf};
ghost use Rattle.client_loop.specs.Standing.{Stands, HasLeft};
ghost use Rattle.actor_steps.specs.Steps.{IsBookFault};
ghost use Rattle.actor_steps.specs.Endings.{falls_of};
ghost use Rattle.client_loop.specs.Visits.{visits_of, softens, use_of, AsksFor, visits_softening_if};
ghost use Rattle.event_recorders.specs.OwnLogs.{FindsItsOwn, part_now};
ghost use Rattle.client_loop.specs.Talking.{HasNotFallen};
ghost use Rattle.client_loop.specs.Attempting.{HasStayed, EndsStaying};

use crate::softening::soften_guard;
use client_core::ClientCore;
use entry_guard::enter_client;
use event_lines::Wish;
use event_recorders::{Gate, OwnRecord, Recorder, RunFault};
use lock_messages::Mode;
use lossy_link::Link;
use std::alloc::Global;
use std::mem::drop;
use vote_weights::NodeSet;

/// Whether the client softens while it is inside: so it wishes, and enters as a writer.
fn does_soften(wish: &Wish) -> bool
    ensures { result ≡ softens wish.now }
{
    match wish.mode {
        Mode::Read => false,
        Mode::Write => wish.soften,
    }
}

/// Is inside by a guard for as long as the gate keeps it. Where the wish softens, it then does, and is inside
/// as a reader for as long as the gate keeps it again. The entering is logged already.
#[tactic(auto, using(crate::proofs::FindingFacts::stands_own))]
pub(crate) fn stay<S: OwnRecord, R: Recorder, L: Link, G: Gate>(
    alloc: Global,
    wish: &Wish,
    granted: NodeSet,
    core: &mut ClientCore,
    stable: &S,
    recorder: &mut R,
    link: &mut L,
    gate: &G,
) -> Result<(), RunFault>
    requires may { MayEnter core.old }
    requires asked { IfSome (ticket_of core.old) (AsksFor (use_of wish.now)) }
    requires stands { Stands (R.own_log recorder.old) (S.StableRecord.finds stable.now) (inside_of core.old) }
    ensures sent { SendsBy result (R.own_log recorder.old) (R.own_log recorder.new) (L.given link.old) (L.given link.new) }
    ensures stayed { OnOk result (HasStayed wish.now granted (R.own_log recorder.old) (R.own_log recorder.new) (S.StableRecord.finds stable.now) core.old core.new) }
    ensures ended { IfErr result (λ f. EndsStaying f wish.now (R.own_log recorder.old) (R.own_log recorder.new)) }
    ensures up { HasNotFallen (R.own_log recorder.old) (R.own_log recorder.new) (S.StableRecord.finds stable.now) }
{
    let Some(mut guard) = enter_client(core) else {
        unreachable!()
    };
    gate.while_inside(recorder, &guard);
    if does_soften(wish) {
        soften_guard(alloc, granted, &mut guard, stable, recorder, link)?;
        gate.while_inside(recorder, &guard);
    }
    drop(guard);
    Ok(())
}

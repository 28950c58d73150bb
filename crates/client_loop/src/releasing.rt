// Telling the nodes that an attempt is over.

ghost use Rattle.std.specs.Prelude.{◌≡◌, true, OnOk, IfErr};
ghost use Rattle.client_core.specs.Clients.{phase_of};
ghost use Rattle.client_loop.specs.Sendings.{SendsBy, SentFollows, SentUnlessMemory};
ghost use Rattle.client_loop.specs.Standing.{Stands};
ghost use Rattle.client_core.specs.declared.phases.Phase.TheVariants as phase;
ghost use Rattle.client_loop.specs.Remembering.{KeepsAsking, core_of, HasHadLast, HasReleased};
ghost use Rattle.client_loop.specs.Releasing.{AsksAt, RestsStill, EndsWaiting};
ghost use Rattle.client_loop.specs.Visits.{GoesOnQuietly, visits_of};
ghost use Rattle.client_loop.specs.Endings.{IsPostFault};
ghost use Rattle.client_loop.specs.Nodes.{IsReleased};
ghost use Rattle.actor_steps.specs.Steps.{IsBookFault};
ghost use Rattle.actor_steps.specs.Endings.{falls_of};
ghost use Rattle.client_loop.specs.Talking.{WaitsBy, Says};

use crate::posts::take_post;
use crate::progress::Progress;
use crate::talking::tell;
use event_recorders::{OwnRecord, Recorder, RunFault};
use lock_messages::NodeId;
use lossy_link::Link;
use std::alloc::Global;
use std::sync::Wait;
use vote_weights::NodeSet;

/// Says the release to each node that was asked and isn't gone.
#[tactic(auto, using(crate::proofs::Steps::talking))]
pub(crate) fn tell_releases<S: OwnRecord, R: Recorder, L: Link>(
    alloc: Global,
    progress: &Progress,
    stable: &S,
    recorder: &mut R,
    link: &mut L,
) -> Result<(), RunFault>
    requires { Stands (R.own_log recorder.old) (S.StableRecord.finds stable.now) progress.now.core }
    ensures says { Says result (R.own_log recorder.old) (R.own_log recorder.new) (L.given link.old) (L.given link.new) (S.StableRecord.finds stable.now) progress.now.core }
{
    for number in 1..=progress.core.ballots().nodes() {
        let Some(node) = NodeId::of(number) else {
            return Ok(());
        };
        if progress.asked.has(node) && !progress.gone.has(node) {
            tell(alloc, &progress.core, node, stable, recorder, link)?;
        }
    }
    Ok(())
}

/// Says the release to each node that was asked, until each has answered or is gone.
#[tactic(auto, using(crate::proofs::Steps::talking, crate::proofs::NudgeFacts::book_has_none))]
pub(crate) fn release<W: Wait, S: OwnRecord, R: Recorder, L: Link>(
    rt: &W,
    alloc: Global,
    progress: &mut Progress,
    stable: &S,
    recorder: &mut R,
    link: &mut L,
) -> Result<(), RunFault>
    requires { Stands (R.own_log recorder.old) (S.StableRecord.finds stable.now) progress.old.core }
    ensures waits { WaitsBy result (R.own_log recorder.old) (R.own_log recorder.new) (L.given link.old) (L.given link.new) (S.StableRecord.finds stable.now) progress.old progress.new }
    ensures asked { progress.new.asked ≡ progress.old.asked }
    // Each node of the ballots that was asked has answered, or is gone.
    ensures released { OnOk result (IsReleased progress.new.core.ballots progress.new.asked progress.new.released progress.new.gone) }
{
    tell_releases(alloc, progress, stable, recorder, link)?;
    for _ in rt.forever() {
        if progress.is_released() {
            return Ok(());
        }
        take_post(alloc, progress, stable, recorder, link)?;
    }
    unreachable!()
}

/// Says the release of the client's last attempt to each of these nodes, until each has answered or is gone. If the
/// client has made no attempt it says nothing.
///
/// A client that has restarted so releases the votes that it held before. It also says a release again that a node has
/// not answered. The nodes that are gone are skipped.
///
/// The caller owes a client that rests, by its own log and its core, and that a restart finds in the record what the
/// client keeps.
///
/// # Errors
///
/// The call had its last nudge (913); it ran out of memory (914), or the book is full or another's (915). The client
/// rests in each case.
#[tactic(auto, using(crate::proofs::BeginFacts::still_client))]
pub fn release_at<W: Wait, S: OwnRecord, R: Recorder, L: Link>(
    rt: &W,
    alloc: Global,
    nodes: NodeSet,
    nudges: u32,
    progress: &mut Progress,
    stable: &S,
    recorder: &mut R,
    link: &mut L,
) -> Result<(), RunFault>
    requires stands { Stands (R.own_log recorder.old) (S.StableRecord.finds stable.now) (core_of progress.old) }
    requires idle { phase_of (core_of progress.old) ≡ phase.Idle }
    ensures sent { SendsBy result (R.own_log recorder.old) (R.own_log recorder.new) (L.given link.old) (L.given link.new) }
    ensures rests { RestsStill (R.own_log recorder.old) (R.own_log recorder.new) (S.StableRecord.finds stable.now) (core_of progress.new) }
    ensures asks { AsksAt (core_of progress.old).attempt nodes nudges progress.new }
    ensures released { OnOk result (HasReleased progress.new) }
    ensures ended { IfErr result (λ f. EndsWaiting f progress.new) }
{
    progress.begin_wish(nudges);
    if progress.core.attempt() == 0 {
        return Ok(());
    }
    progress.asked = nodes;
    release(rt, alloc, progress, stable, recorder, link)
}

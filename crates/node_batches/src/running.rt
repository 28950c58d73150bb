// A node's whole run, in batches.

ghost use Rattle.std.specs.Prelude.{◌≡◌, ◌∷◌, [], false, OnOk, OnErr, IfOk, IfErr};
ghost use Rattle.stable_record.specs.declared.node_records.NodeRecord.{NodeRecord};
ghost use Rattle.actor_steps.specs.Sendings.{sent_of, SentFollows};
ghost use Rattle.event_recorders.specs.OwnLogs.{kept_in, part_now};
ghost use Rattle.stable_record.specs.Finding.{FindsOnlyOr};
ghost use Rattle.node_loop.specs.Endings.{EndsIdle};
ghost use Rattle.node_loop.specs.Standing.{IsReady, StandsIdle, IsAtEnd, as_opened};
ghost use Rattle.actor_steps.specs.Endings.{falls_of};
ghost use Rattle.actor_steps.specs.Steps.{IsBookFault};
ghost use Rattle.node_batches.specs.Batches.{Rests, FindsLast, SendsKept, SendsKeptSince, HasGone, HasCause};

use crate::batches::{Desk, bytes_of, do_batch, gather};
use crate::outlets::{found_in, keep};
use admission_policy::Pair;
use event_recorders::laws::records_fit;
use event_recorders::{Gate, Recorder, RunFault};
use lock_messages::NodeId;
use lossy_link::Link;
use node_loop::{rise, tell_gone};
use own_recorders::{BatchJournal, OwnActor, OwnRecorder};
use stable_record::{MemoryRecord, StableRecord};
use std::alloc::Global;
use std::sync::Wait;

/// The node rises with these bytes, of which it makes its copy.
#[tactic(auto, using(crate::proofs::BatchFacts::never_falls, crate::proofs::BatchFacts::refused_only, actor_steps::proofs::SendingFacts::unused_sends_nothing))]
fn rise_with<R: Recorder>(
    alloc: Global,
    node: NodeId,
    found: &[u8],
    policies: Pair,
    recorder: &mut R,
) -> Result<Desk, RunFault>
    requires { (kept : NodeRecord) × IsReady (R.own_log recorder.old) node kept (found.now ∷ []) }
    ensures idle { IfOk result (λ desk. StandsIdle (R.own_log recorder.new) desk.core (desk.copy ∷ []) false) }
    ensures up { OnOk result (falls_of (R.own_log recorder.new) ≡ 0) }
    ensures silent { OnOk result (sent_of (R.own_log recorder.new) ≡ []) }
    ensures opened { as_opened (R.own_log recorder.new) ≡ as_opened (R.own_log recorder.old) }
    ensures faults { IfErr result IsBookFault }
{
    let Ok(mut copy) = MemoryRecord::holding(alloc, found) else {
        return Err(RunFault::Memory);
    };
    let core = rise(alloc, node, &mut copy, policies, recorder)?;
    Ok(Desk { core, copy })
}

/// The node rises with what is found in its record. Its first line goes out, and its record has what the node has kept.
#[tactic(auto, using(crate::proofs::RunFacts::rising))]
fn open_desk<K: OwnActor, W: BatchJournal + Drop>(
    alloc: Global,
    node: NodeId,
    stable: &mut dyn StableRecord,
    policies: Pair,
    recorder: &mut OwnRecorder<K, W>,
) -> Result<Desk, RunFault>
    requires { (kept : NodeRecord) × IsReady recorder.old.log node kept (finds stable.old) }
    ensures rests { IfOk result (λ desk. Rests recorder.new.log desk.core desk.copy (finds stable.new) (stuck_of stable.new)) }
    ensures silent { OnOk result (sent_of recorder.new.log ≡ []) }
    ensures only { FindsOnlyOr (finds stable.old) (kept_in (part_now recorder.new.log)) (finds stable.new) }
    ensures opened { as_opened recorder.new.log ≡ as_opened recorder.old.log }
    ensures cause { IfErr result (λ f. HasCause f (stuck_of stable.new) (spent_of stable.new)) }
{
    let found = found_in(stable)?;
    let mut desk = rise_with(alloc, node, &found, policies, recorder)?;
    let next = bytes_of(&mut desk.copy)?;
    records_fit();
    let Ok(()) = recorder.let_out(&next) else {
        return Err(RunFault::Book);
    };
    recorder.tell();
    keep(&found, &next, stable)?;
    Ok(desk)
}

/// Works off one batch after the other, until nothing more comes.
#[tactic(auto, using(crate::proofs::BatchFacts::serving, actor_steps::proofs::SendingFacts::follows_none))]
fn serve_batches<T: Wait, K: OwnActor, W: BatchJournal + Drop, L: Link, G: Gate>(
    rt: &T,
    alloc: Global,
    desk: &mut Desk,
    stable: &mut dyn StableRecord,
    recorder: &mut OwnRecorder<K, W>,
    link: &mut L,
    gate: &G,
) -> Result<(), RunFault>
    requires rests { Rests recorder.old.log desk.old.core desk.old.copy (finds stable.old) (stuck_of stable.old) }
    ensures rests { OnOk result (Rests recorder.new.log desk.new.core desk.new.copy (finds stable.new) (stuck_of stable.new)) }
    ensures closed { OnOk result (IsAtEnd (L.coming link.new)) }
    ensures sent { OnOk result (SentFollows recorder.old.log recorder.new.log (L.given link.old) (L.given link.new)) }
    ensures kept { OnErr result (SendsKeptSince recorder.old.log recorder.new.log (finds stable.new) (L.given link.old) (L.given link.new)) }
    ensures opened { as_opened recorder.new.log ≡ as_opened recorder.old.log }
    ensures cause { IfErr result (λ f. HasCause f (stuck_of stable.new) (spent_of stable.new)) }
{
    for _ in rt.forever() {
        let posts = gather(alloc, link)?;
        if posts.is_empty() {
            return Ok(());
        }
        do_batch(rt, alloc, posts, desk, stable, recorder, link, gate)?;
    }
    unreachable!()
}

/// The node rises, and works off its posts until no more come.
#[tactic(auto, using(crate::proofs::RunFacts::living))]
fn live<T: Wait, K: OwnActor, W: BatchJournal + Drop, L: Link, G: Gate>(
    rt: &T,
    alloc: Global,
    node: NodeId,
    stable: &mut dyn StableRecord,
    policies: Pair,
    recorder: &mut OwnRecorder<K, W>,
    link: &mut L,
    gate: &G,
) -> Result<(), RunFault>
    requires { (kept : NodeRecord) × IsReady recorder.old.log node kept (finds stable.old) }
    ensures done { OnOk result (EndsIdle recorder.new.log (L.given link.old) (L.given link.new) (L.coming link.new)) }
    ensures found { OnOk result (FindsLast recorder.new.log (finds stable.new)) }
    ensures kept { SendsKept recorder.new.log (finds stable.new) (L.given link.old) (L.given link.new) }
    ensures opened { as_opened recorder.new.log ≡ as_opened recorder.old.log }
    ensures cause { IfErr result (λ f. HasCause f (stuck_of stable.new) (spent_of stable.new)) }
{
    let mut desk = open_desk(alloc, node, stable, policies, recorder)?;
    serve_batches(rt, alloc, &mut desk, stable, recorder, link, gate)
}

/// Runs a node as `node_loop::run_node` does, but keeps its record once for all messages that have come, at most
/// `MAX_BATCH`. Then it sends its replies. Before it keeps the record it lets out the journal's lines, and hands the journal
/// the bytes that it is about to keep.
///
/// The caller owes a recorder whose own log is this node's and unused, with the node down and nothing tried in its opening;
/// and a record in which a restart finds just what the node has kept there, which is a node record that can be read again.
///
/// # Errors
///
/// The record's device failed (911), out of memory (914), the journal can't be written (915), or no change of the record can
/// be numbered any more (916). Then nothing was sent that is not kept: see the crate's root. The node tells every client that
/// it is gone, as far as there is memory for it. It does not try a device again that failed: the next life finds what the
/// record has.
#[tactic(auto, using(crate::proofs::RunFacts::gone_kept))]
pub fn run_node_in_batches<T: Wait, K: OwnActor, W: BatchJournal + Drop, L: Link, G: Gate>(
    rt: &T,
    alloc: Global,
    node: NodeId,
    stable: &mut dyn StableRecord,
    policies: Pair,
    recorder: &mut OwnRecorder<K, W>,
    link: &mut L,
    gate: &G,
) -> Result<(), RunFault>
    requires { (kept : NodeRecord) × IsReady recorder.old.log node kept (finds stable.old) }
    // Without a fault it has answered all that it took, has sent what its log tells, and nothing more comes over its link.
    ensures done { OnOk result (EndsIdle recorder.new.log (L.given link.old) (L.given link.new) (L.coming link.new)) }
    ensures found { OnOk result (FindsLast recorder.new.log (finds stable.new)) }
    // With a fault nothing was sent that is not kept. It has told every client that it is gone, unless memory ran out.
    ensures kept { OnErr result (HasGone node recorder.new.log (finds stable.new) (L.given link.old) (L.given link.new) (L.refused link.new)) }
    ensures opened { as_opened recorder.new.log ≡ as_opened recorder.old.log }
    ensures cause { IfErr result (λ f. HasCause f (stuck_of stable.new) (spent_of stable.new)) }
{
    let ended = live(rt, alloc, node, stable, policies, recorder, link, gate);
    if ended.is_err() {
        tell_gone(node, link);
    }
    ended
}

// A node's whole run.

ghost use Rattle.std.specs.Prelude.{◌≡◌, [], IfOk, IfErr, OnOk};
ghost use Rattle.stable_record.specs.declared.node_records.NodeRecord.{NodeRecord};
ghost use Rattle.node_loop.specs.Endings.{EndsIdle, HasRun, EndsSomehow};
ghost use Rattle.node_loop.specs.Replies.{sent_of};
ghost use Rattle.node_loop.specs.Unsent.{ToldAsFar, TellsGone, HasGone};
ghost use Rattle.node_loop.specs.Turns.{moment, Turns};
ghost use Rattle.node_loop.specs.Standing.{StandsIdle, IsReady, IsAtEnd, IsNodeFault, GoesOn, EndsWithCause};
ghost use Rattle.actor_steps.specs.Endings.{falls_of, EndsBy};

use crate::attending::attend;
use actor_steps::rise_first;
use admission_policy::Pair;
use event_recorders::{BoxedRecord, Gate, OwnRecord, Recorder, RunFault};
use lock_messages::{Actor, NodeId};
use lossy_link::{Link, Post};
use stable_record::StableRecord;
use stable_record::laws::one_spelling;
use std::alloc::Global;
use std::sync::Wait;
use voter_core::{NodeCore, VoterFault};

/// The node rises with what its record is found to be, and returns its core.
///
/// The caller owes what it owes `run_node`. The errors: three reopens of the record failed (911), out of memory (914), or
/// the log takes no more (915).
#[tactic(auto, using(crate::proofs::OpeningFacts::added_opening, actor_steps::proofs::SendingFacts::first_rise_sends_nothing, actor_steps::proofs::SendingFacts::unused_sends_nothing))]
pub fn rise<S: OwnRecord, R: Recorder>(
    alloc: Global,
    node: NodeId,
    stable: &mut S,
    policies: Pair,
    recorder: &mut R,
) -> Result<NodeCore, RunFault>
    requires { (kept : NodeRecord) × IsReady (R.own_log recorder.old) node kept (S.StableRecord.finds stable.old) }
    ensures idle { IfOk result (λ core. StandsIdle (R.own_log recorder.new) core (S.StableRecord.finds stable.new) (S.StableRecord.stuck_of stable.new)) }
    ensures silent { sent_of (R.own_log recorder.new) ≡ [] }
    ensures goes { GoesOn (falls_of (R.own_log recorder.old)) (R.own_log recorder.old) (R.own_log recorder.new) (S.StableRecord.finds stable.new) (S.StableRecord.failures_of stable.old) (S.StableRecord.failures_of stable.new) }
    ensures ended { IfErr result (λ f. EndsWithCause f (falls_of (R.own_log recorder.old)) (R.own_log recorder.new) (S.StableRecord.stuck_of stable.new) (S.StableRecord.spent_of stable.new) (S.StableRecord.failures_of stable.old) (S.StableRecord.failures_of stable.new)) }
{
    one_spelling();
    let found = rise_first(Actor::Node(node), stable, recorder)?;
    match NodeCore::rise(alloc, node, &found, policies) {
        Ok(core) => Ok(core),
        Err((_, VoterFault::Memory)) => Err(RunFault::Memory),
        Err((_, VoterFault::Unreadable(_))) => unreachable!(),
    }
}

/// Attends to one post after the other, as `run_node` does, until no more come.
///
/// The caller owes a node that is up and has answered all that it took, with just its core's record kept. The errors are
/// those of `run_node`.
#[tactic(auto, using(crate::proofs::KeepFacts::stands_own))]
pub fn serve<W: Wait, S: OwnRecord, R: Recorder, L: Link, G: Gate>(
    rt: &W,
    alloc: Global,
    core: &mut NodeCore,
    stable: &mut S,
    recorder: &mut R,
    link: &mut L,
    gate: &G,
) -> Result<(), RunFault>
    requires { StandsIdle (R.own_log recorder.old) core.old (S.StableRecord.finds stable.old) (S.StableRecord.stuck_of stable.old) }
    ensures turns { let before = moment core.old (R.own_log recorder.old) (S.StableRecord.finds stable.old) (S.StableRecord.stuck_of stable.old) (S.StableRecord.spent_of stable.old) (S.StableRecord.failures_of stable.old) (L.given link.old) in
        let after = moment core.new (R.own_log recorder.new) (S.StableRecord.finds stable.new) (S.StableRecord.stuck_of stable.new) (S.StableRecord.spent_of stable.new) (S.StableRecord.failures_of stable.new) (L.given link.new) in
        Turns result before after }
    ensures closed { OnOk result (IsAtEnd (L.coming link.new)) }
{
    for _ in rt.forever() {
        let Ok(post) = link.receive() else {
            return Ok(());
        };
        attend(alloc, post, core, stable, recorder, link, gate)?;
    }
    unreachable!()
}

/// The node rises, and attends to its posts until no more come.
#[tactic(auto, using(actor_steps::proofs::SendingFacts::all_told, crate::proofs::UnsentFacts::none_told))]
fn live<W: Wait, S: OwnRecord, R: Recorder, L: Link, G: Gate>(
    rt: &W,
    alloc: Global,
    node: NodeId,
    stable: &mut S,
    policies: Pair,
    recorder: &mut R,
    link: &mut L,
    gate: &G,
) -> Result<(), RunFault>
    requires { (kept : NodeRecord) × IsReady (R.own_log recorder.old) node kept (S.StableRecord.finds stable.old) }
    ensures done { OnOk result (EndsIdle (R.own_log recorder.new) (L.given link.old) (L.given link.new) (L.coming link.new)) }
    ensures faulted { IfErr result (λ f. ToldAsFar f (R.own_log recorder.new) (L.given link.old) (L.given link.new)) }
    ensures faults { IfErr result IsNodeFault }
    ensures ended { IfErr result (λ f. EndsBy f (R.own_log recorder.new) (S.StableRecord.stuck_of stable.new) (S.StableRecord.spent_of stable.new) (S.StableRecord.failures_of stable.old) (S.StableRecord.failures_of stable.new)) }
    ensures run { HasRun (R.own_log recorder.old) (R.own_log recorder.new) (S.StableRecord.finds stable.new) (S.StableRecord.failures_of stable.old) (S.StableRecord.failures_of stable.new) }
{
    let mut core = rise(alloc, node, stable, policies, recorder)?;
    serve(rt, alloc, &mut core, stable, recorder, link, gate)
}

/// Tells every client that the node is gone, as far as there is memory for it.
#[tactic(auto, using(crate::proofs::UnsentFacts::gone_is_told))]
pub fn tell_gone<L: Link>(node: NodeId, link: &mut L)
    ensures gone { TellsGone node (L.given link.old) (L.given link.new) (L.refused link.new) }
{
    let _ = link.tell_all(Post::Gone(node));
}

/// Runs a node as `run_node` does, over a record that is lent to it: so its contract also ties each fall, and
/// each fault, to what that record answers afterwards.
///
/// The caller owes what it owes `run_node`, and gets its errors.
#[tactic(auto, using(crate::proofs::UnsentFacts::has_gone))]
pub fn run_node_over<W: Wait, S: OwnRecord, R: Recorder, L: Link, G: Gate>(
    rt: &W,
    alloc: Global,
    node: NodeId,
    stable: &mut S,
    policies: Pair,
    recorder: &mut R,
    link: &mut L,
    gate: &G,
) -> Result<(), RunFault>
    requires { (kept : NodeRecord) × IsReady (R.own_log recorder.old) node kept (S.StableRecord.finds stable.old) }
    // Without a fault it has answered all that it took, has sent what its log tells, and nothing more comes over its link.
    ensures done { OnOk result (EndsIdle (R.own_log recorder.new) (L.given link.old) (L.given link.new) (L.coming link.new)) }
    // With a fault it has sent what its log tells. Only if it ran out of memory or is down may an end of its last sending be
    // missing. It has told every client that it is gone, unless memory ran out.
    ensures faulted { IfErr result (λ f. HasGone node f (R.own_log recorder.new) (L.given link.old) (L.given link.new) (L.refused link.new)) }
    // However it ends, its device failed for each fall that it logged, and a restart finds in its record nothing but what it has
    // kept and what it tries to keep.
    ensures run { HasRun (R.own_log recorder.old) (R.own_log recorder.new) (S.StableRecord.finds stable.new) (S.StableRecord.failures_of stable.old) (S.StableRecord.failures_of stable.new) }
    // The fault is 911, 914, 915 or 916.
    ensures faults { IfErr result IsNodeFault }
    // Its log and its record show the cause.
    ensures ended { IfErr result (λ f. EndsBy f (R.own_log recorder.new) (S.StableRecord.stuck_of stable.new) (S.StableRecord.spent_of stable.new) (S.StableRecord.failures_of stable.old) (S.StableRecord.failures_of stable.new)) }
{
    let ended = live(rt, alloc, node, stable, policies, recorder, link, gate);
    if ended.is_err() {
        tell_gone(node, link);
    }
    ended
}

/// Runs a node: it rises with what its record holds, takes the messages of its parcels one after the
/// other, keeps what they change, and sends its replies, until nothing comes any more over its link.
///
/// The caller owes a recorder whose own log is this node's and unused, with the node down and nothing tried
/// in its opening; and a record in which a restart finds just what the node has kept there, which is a node
/// record that can be read again. The node solves that record's problem.
///
/// A post that switches the problem is logged and taken like a message: what it changes is kept, and then
/// the Grants of those who are let in are sent, perhaps none. A number that no problem has is dropped.
///
/// A nudge, a node that is gone, and a frame that is no message for the node are dropped and log nothing;
/// so is a parcel whose number was never sent, or sent to another actor (607, 608). The message that is
/// taken is the one that the log has under the parcel's number, whatever the frame says. Where the record's
/// device fails in a keep (301), the node falls, rises again with what its record is found to be, and tells
/// every client to ask again, since its replies are lost.
///
/// The errors: three reopens of the record failed in a row (911), memory was refused (914), the book is
/// full or another's (915), no change of the record can be numbered any more (916). Then every client is
/// told that the node is gone, as far as there is memory for it. It waits where its link, its recorder or
/// its gate does. The way of a turn, and what is dropped, are our own rules.
/// Its loop has no end of its own, so it takes a Wait also over links and recorders that never wait.
#[tactic(auto, using(crate::proofs::TurnFacts::ends_somehow))]
pub fn run_node<W: Wait, R: Recorder, L: Link, G: Gate>(
    rt: &W,
    alloc: Global,
    node: NodeId,
    stable: Box<dyn StableRecord + Send>,
    policies: Pair,
    recorder: &mut R,
    link: &mut L,
    gate: &G,
) -> Result<(), RunFault>
    requires { (kept : NodeRecord) × IsReady (R.own_log recorder.old) node kept (finds stable) }
    // Without a fault it has answered all that it took, has sent what its log tells, and nothing more comes over its link.
    ensures done { OnOk result (EndsIdle (R.own_log recorder.new) (L.given link.old) (L.given link.new) (L.coming link.new)) }
    // With a fault it has sent what its log tells. Only if it ran out of memory or is down may an end of its last sending be
    // missing. It has told every client that it is gone, unless memory ran out.
    ensures faulted { IfErr result (λ f. HasGone node f (R.own_log recorder.new) (L.given link.old) (L.given link.new) (L.refused link.new)) }
    // The fault is 911, 914, 915 or 916.
    ensures faults { IfErr result IsNodeFault }
    // Its log, and what its record then answers, show the cause.
    ensures ended { IfErr result (λ f. EndsSomehow f (R.own_log recorder.new)) }
{
    let mut stable = BoxedRecord::of(stable);
    run_node_over(rt, alloc, node, &mut stable, policies, recorder, link, gate)
}

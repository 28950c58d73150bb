// A node's turn: from a post to the replies.

ghost use Rattle.std.specs.Prelude.{◌≡◌, ◌+◌, true, IfOk, IfErr, IfSome, IfNone, OnOk, OnErr, IsOkUnless};
ghost use Rattle.lock_messages.specs.Messages.{is_for_node};
ghost use Rattle.admission_policy.specs.Policies.{problem_number};
ghost use Rattle.stable_record.specs.declared.node_records.NodeRecord.{NodeRecord};
ghost use Rattle.voter_core.specs.Voters.{Decided, Stored, record_of, replies_in};
ghost use Rattle.lossy_link.specs.Links.{one_more};
ghost use Rattle.lossy_link.specs.declared.parcels.Post.{Post as PostValue};
ghost use Rattle.lossy_link.specs.declared.parcels.Sending.{Sending as SendingValue};
ghost use Rattle.node_loop.specs.Replies.{sent_of, SendsNothing, SendsNudge, IsSentIn};
ghost use Rattle.node_loop.specs.Unsent.{HasSent, IsWhole};
ghost use Rattle.node_loop.specs.Turns.{moment, Turns, Drops};
ghost use Rattle.node_loop.specs.Standing.{IsUnchanged, StandsBy, StandsIdle, StaysUp, GoesOn, HasTaken, HasSwitched, HasKept, FailsToKeep, IsNoProblem, EndsWithCause};
ghost use Rattle.actor_steps.specs.Steps.{IsBookFault};
ghost use Rattle.actor_steps.specs.Endings.{falls_of};

use crate::replies::send_all;
use actor_steps::{Keeping, keep_next, log_plain, log_reading, log_switch, rise_again};
use event_recorders::laws::records_fit;
use event_recorders::{Gate, OwnRecord, Recorder, RunFault};
use lock_messages::{Actor, Message, NodeId, decode};
use lock_model::Problem;
use lock_model::laws::{changes_are_seen, switch_is_allowed};
use lossy_link::{Link, Parcel, Post};
use stable_record::laws::one_spelling;
use std::alloc::Global;
use voter_core::{NodeCore, VoterFault};
use world_model::Event;

/// Takes the message that came under this number, as the log has it, and returns whether it changes the node's record.
/// `None`: the log knows no message of the number to the node.
#[tactic(auto, using(crate::proofs::OpeningFacts::staying_up, crate::proofs::SentFacts::read_sends_nothing, actor_steps::proofs::ReadingFacts::read_took))]
fn take<S: OwnRecord, R: Recorder>(
    number: u32,
    message: &Message,
    core: &mut NodeCore,
    stable: &S,
    recorder: &mut R,
) -> Result<Option<bool>, RunFault>
    requires stands { StandsIdle (R.own_log recorder.old) core.old (S.StableRecord.finds stable.now) (S.StableRecord.stuck_of stable.now) }
    requires addressed { is_for_node message.now core.old.node ≡ true }
    ensures dropped { IfOk result (λ o. IfNone o (IsUnchanged core.old core.new (R.own_log recorder.old) (R.own_log recorder.new))) }
    ensures taken { IfOk result (λ o. IfSome o (λ changed. HasTaken changed (R.own_log recorder.new) core.new (record_of core.old) (S.StableRecord.finds stable.now) (S.StableRecord.stuck_of stable.now))) }
    ensures silent { SendsNothing (R.own_log recorder.old) (R.own_log recorder.new) }
    ensures up { StaysUp (R.own_log recorder.old) (R.own_log recorder.new) (S.StableRecord.finds stable.now) }
    ensures faults { IfErr result IsBookFault }
{
    let event = Event::Take(core.node(), number);
    let Some(message) = log_reading(recorder, event, message, stable)? else {
        return Ok(None);
    };
    changes_are_seen();
    let Ok(changed) = core.take(&message) else {
        return Err(RunFault::Memory);
    };
    Ok(Some(changed))
}

/// The problem with this number, 1 or 2; `None` exactly where no problem has it.
fn problem_numbered(number: u8) -> Option<Problem>
    ensures numbered { IfSome result (λ problem. problem_number problem ≡ number) }
    ensures none { IfNone result (IsNoProblem number) }
{
    match number {
        1 => Some(Problem::First),
        2 => Some(Problem::Second),
        _ => None,
    }
}

/// Takes this problem from now on, and answers whether it is another one, which changes the node's record.
#[tactic(auto, using(crate::proofs::OpeningFacts::staying_up, crate::proofs::SentFacts::switch_sends_nothing))]
fn switch<S: OwnRecord, R: Recorder>(
    problem: Problem,
    core: &mut NodeCore,
    stable: &S,
    recorder: &mut R,
) -> Result<bool, RunFault>
    requires { StandsIdle (R.own_log recorder.old) core.old (S.StableRecord.finds stable.now) (S.StableRecord.stuck_of stable.now) }
    ensures switched { IfOk result (λ changed. HasSwitched problem changed (R.own_log recorder.old) (R.own_log recorder.new) core.new (record_of core.old) (S.StableRecord.finds stable.now) (S.StableRecord.stuck_of stable.now)) }
    ensures silent { SendsNothing (R.own_log recorder.old) (R.own_log recorder.new) }
    ensures up { StaysUp (R.own_log recorder.old) (R.own_log recorder.new) (S.StableRecord.finds stable.now) }
    ensures faults { IfErr result IsBookFault }
{
    log_switch(recorder, core.node(), problem, stable)?;
    switch_is_allowed();
    let _station = core.record();
    let Ok(changed) = core.switch(problem) else {
        return Err(RunFault::Memory);
    };
    Ok(changed)
}

/// Keeps what the node decided. Where the record's device fails, the node falls and rises again with
/// what is found.
#[tactic(auto, using(crate::proofs::KeepFacts::keeping))]
fn keep<S: OwnRecord, R: Recorder, G: Gate>(
    alloc: Global,
    core: &mut NodeCore,
    stable: &mut S,
    recorder: &mut R,
    gate: &G,
) -> Result<Keeping, RunFault>
    requires { (before : NodeRecord) × StandsBy (Decided (replies_in core.old.state)) (R.own_log recorder.old) core.old before (S.StableRecord.finds stable.old) (S.StableRecord.stuck_of stable.old) }
    ensures sent { IfOk result (λ keeping. IsSentIn keeping core.new.node (R.own_log recorder.old) (R.own_log recorder.new)) }
    ensures unsent { HasSent (R.own_log recorder.new) (sent_of (R.own_log recorder.old)) }
    ensures whole { IfErr result (λ f. IsWhole f (R.own_log recorder.new) (sent_of (R.own_log recorder.old))) }
    ensures kept { IfOk result (λ keeping. HasKept keeping (R.own_log recorder.new) core.new (S.StableRecord.finds stable.new) (S.StableRecord.stuck_of stable.new)) }
    ensures goes { GoesOn (falls_of (R.own_log recorder.old)) (R.own_log recorder.old) (R.own_log recorder.new) (S.StableRecord.finds stable.new) (S.StableRecord.failures_of stable.old) (S.StableRecord.failures_of stable.new) }
    ensures ended { IfErr result (λ f. EndsWithCause f (falls_of (R.own_log recorder.old)) (R.own_log recorder.new) (S.StableRecord.stuck_of stable.new) (S.StableRecord.spent_of stable.new) (S.StableRecord.failures_of stable.old) (S.StableRecord.failures_of stable.new)) }
{
    let Ok(bytes) = core.next_bytes(alloc) else {
        return Err(RunFault::Memory);
    };
    records_fit();
    // What the core hands out is a record that can be kept: so its bytes fit, and can be read again.
    let _station = core.record();
    let actor = Actor::Node(core.node());
    match keep_next(actor, &bytes, stable, recorder, gate)? {
        Keeping::Kept => {
            core.kept();
            Ok(Keeping::Kept)
        }
        Keeping::Failed => {
            restart(&bytes, core, stable, recorder)?;
            Ok(Keeping::Failed)
        }
    }
}

/// The node falls, and rises again with what its record is found to be.
#[tactic(auto, using(crate::proofs::KeepFacts::restarting))]
fn restart<S: OwnRecord, R: Recorder>(
    tried: &[u8],
    core: &mut NodeCore,
    stable: &mut S,
    recorder: &mut R,
) -> Result<(), RunFault>
    requires { (before : NodeRecord) × FailsToKeep (R.own_log recorder.old) core.old before tried.now (S.StableRecord.finds stable.old) }
    ensures idle { OnOk result (StandsIdle (R.own_log recorder.new) core.new (S.StableRecord.finds stable.new) (S.StableRecord.stuck_of stable.new)) }
    ensures sent { OnOk result (SendsNudge core.new.node (R.own_log recorder.old) (R.own_log recorder.new)) }
    ensures unsent { HasSent (R.own_log recorder.new) (sent_of (R.own_log recorder.old)) }
    ensures whole { IfErr result (λ f. IsWhole f (R.own_log recorder.new) (sent_of (R.own_log recorder.old))) }
    ensures goes { GoesOn (falls_of (R.own_log recorder.old) + 1) (R.own_log recorder.old) (R.own_log recorder.new) (S.StableRecord.finds stable.new) (S.StableRecord.failures_of stable.old) (S.StableRecord.failures_of stable.new) }
    ensures ended { IfErr result (λ f. EndsWithCause f (falls_of (R.own_log recorder.old) + 1) (R.own_log recorder.new) (S.StableRecord.stuck_of stable.new) (S.StableRecord.spent_of stable.new) (S.StableRecord.failures_of stable.old) (S.StableRecord.failures_of stable.new)) }
{
    one_spelling();
    let found = rise_again(Actor::Node(core.node()), tried, stable, recorder)?;
    match core.restart(&found) {
        Ok(()) => Ok(()),
        Err(VoterFault::Memory) => Err(RunFault::Memory),
        Err(VoterFault::Unreadable(_)) => unreachable!(),
    }
}

/// Says the node's replies, and sends them.
#[tactic(auto, using(crate::proofs::OpeningFacts::staying_up, crate::proofs::UnsentFacts::silent_far, actor_steps::proofs::EndFacts::failures_stay))]
fn say<S: OwnRecord, R: Recorder, L: Link>(
    alloc: Global,
    core: &mut NodeCore,
    stable: &S,
    recorder: &mut R,
    link: &mut L,
) -> Result<(), RunFault>
    requires { StandsBy (Stored (replies_in core.old.state)) (R.own_log recorder.old) core.old (record_of core.old) (S.StableRecord.finds stable.now) (S.StableRecord.stuck_of stable.now) }
    ensures turns { let before = moment core.old (R.own_log recorder.old) (S.StableRecord.finds stable.now) (S.StableRecord.stuck_of stable.now) (S.StableRecord.spent_of stable.now) (S.StableRecord.failures_of stable.now) (L.given link.old) in
        let after = moment core.new (R.own_log recorder.new) (S.StableRecord.finds stable.now) (S.StableRecord.stuck_of stable.now) (S.StableRecord.spent_of stable.now) (S.StableRecord.failures_of stable.now) (L.given link.new) in
        Turns result before after }
    ensures up { StaysUp (R.own_log recorder.old) (R.own_log recorder.new) (S.StableRecord.finds stable.now) }
    ensures faults { IfErr result IsBookFault }
{
    let said = log_plain(recorder, Event::Say(core.node()), stable)?;
    let replies = core.speak();
    send_all(alloc, said.number(), &replies, link)
}

/// Tells every client that it should ask the node again, since replies are lost.
fn tell_lost<L: Link>(node: NodeId, link: &mut L) -> Result<(), RunFault>
    ensures told { OnOk result (L.given link.new ≡ one_more (L.given link.old) (SendingValue.Told (PostValue.Nudge node))) }
    ensures still { OnErr result (L.given link.new ≡ L.given link.old) }
    ensures memory { IsOkUnless result RunFault.Memory }
{
    if link.tell_all(Post::Nudge(node)).is_err() {
        return Err(RunFault::Memory);
    }
    Ok(())
}

/// Keeps what the node took, where it changed the record, and sends the replies.
#[tactic(auto, using(crate::proofs::TurnFacts::turns_after, crate::proofs::UnsentFacts::nothing_given, actor_steps::proofs::SendingFacts::follows_none))]
fn finish<S: OwnRecord, R: Recorder, L: Link, G: Gate>(
    alloc: Global,
    changed: bool,
    core: &mut NodeCore,
    stable: &mut S,
    recorder: &mut R,
    link: &mut L,
    gate: &G,
) -> Result<(), RunFault>
    requires { (before : NodeRecord) × HasTaken changed (R.own_log recorder.old) core.old before (S.StableRecord.finds stable.old) (S.StableRecord.stuck_of stable.old) }
    ensures turns { let before = moment core.old (R.own_log recorder.old) (S.StableRecord.finds stable.old) (S.StableRecord.stuck_of stable.old) (S.StableRecord.spent_of stable.old) (S.StableRecord.failures_of stable.old) (L.given link.old) in
        let after = moment core.new (R.own_log recorder.new) (S.StableRecord.finds stable.new) (S.StableRecord.stuck_of stable.new) (S.StableRecord.spent_of stable.new) (S.StableRecord.failures_of stable.new) (L.given link.new) in
        Turns result before after }
{
    if changed {
        match keep(alloc, core, stable, recorder, gate)? {
            Keeping::Kept => {}
            Keeping::Failed => return tell_lost(core.node(), link),
        }
    }
    say(alloc, core, &*stable, recorder, link)
}

/// A turn: takes the message that came under the number, keeps what it changes, and sends the replies.
#[tactic(auto, using(crate::proofs::TurnFacts::up_goes, crate::proofs::TurnFacts::turns_after, crate::proofs::UnsentFacts::silent_far, actor_steps::proofs::SendingFacts::follows_none))]
fn take_turn<S: OwnRecord, R: Recorder, L: Link, G: Gate>(
    alloc: Global,
    number: u32,
    message: &Message,
    core: &mut NodeCore,
    stable: &mut S,
    recorder: &mut R,
    link: &mut L,
    gate: &G,
) -> Result<(), RunFault>
    requires stands { StandsIdle (R.own_log recorder.old) core.old (S.StableRecord.finds stable.old) (S.StableRecord.stuck_of stable.old) }
    requires addressed { is_for_node message.now core.old.node ≡ true }
    ensures turns { let before = moment core.old (R.own_log recorder.old) (S.StableRecord.finds stable.old) (S.StableRecord.stuck_of stable.old) (S.StableRecord.spent_of stable.old) (S.StableRecord.failures_of stable.old) (L.given link.old) in
        let after = moment core.new (R.own_log recorder.new) (S.StableRecord.finds stable.new) (S.StableRecord.stuck_of stable.new) (S.StableRecord.spent_of stable.new) (S.StableRecord.failures_of stable.new) (L.given link.new) in
        Turns result before after }
{
    let Some(changed) = take(number, message, core, &*stable, recorder)? else {
        return Ok(());
    };
    finish(alloc, changed, core, stable, recorder, link, gate)
}

/// A turn: takes the problem of this number, keeps what that changes, and sends the replies. A number that
/// no problem has is dropped.
#[tactic(auto, using(crate::proofs::TurnFacts::up_goes, crate::proofs::TurnFacts::turns_after, crate::proofs::UnsentFacts::silent_far, actor_steps::proofs::SendingFacts::follows_none))]
fn switch_turn<S: OwnRecord, R: Recorder, L: Link, G: Gate>(
    alloc: Global,
    number: u8,
    core: &mut NodeCore,
    stable: &mut S,
    recorder: &mut R,
    link: &mut L,
    gate: &G,
) -> Result<(), RunFault>
    requires { StandsIdle (R.own_log recorder.old) core.old (S.StableRecord.finds stable.old) (S.StableRecord.stuck_of stable.old) }
    ensures turns { let before = moment core.old (R.own_log recorder.old) (S.StableRecord.finds stable.old) (S.StableRecord.stuck_of stable.old) (S.StableRecord.spent_of stable.old) (S.StableRecord.failures_of stable.old) (L.given link.old) in
        let after = moment core.new (R.own_log recorder.new) (S.StableRecord.finds stable.new) (S.StableRecord.stuck_of stable.new) (S.StableRecord.spent_of stable.new) (S.StableRecord.failures_of stable.new) (L.given link.new) in
        Turns result before after }
    ensures dropped { let before = moment core.old (R.own_log recorder.old) (S.StableRecord.finds stable.old) (S.StableRecord.stuck_of stable.old) (S.StableRecord.spent_of stable.old) (S.StableRecord.failures_of stable.old) (L.given link.old) in
        let after = moment core.new (R.own_log recorder.new) (S.StableRecord.finds stable.new) (S.StableRecord.stuck_of stable.new) (S.StableRecord.spent_of stable.new) (S.StableRecord.failures_of stable.new) (L.given link.new) in
        IsNoProblem number → Drops result before after }
{
    let Some(problem) = problem_numbered(number) else {
        return Ok(());
    };
    let changed = switch(problem, core, &*stable, recorder)?;
    finish(alloc, changed, core, stable, recorder, link, gate)
}

/// Does what a parcel asks for. What is no message for the node is dropped.
#[tactic(auto, using(actor_steps::proofs::SendingFacts::follows_none, crate::proofs::KeepFacts::stands_own))]
fn parcel_turn<S: OwnRecord, R: Recorder, L: Link, G: Gate>(
    alloc: Global,
    parcel: &Parcel,
    core: &mut NodeCore,
    stable: &mut S,
    recorder: &mut R,
    link: &mut L,
    gate: &G,
) -> Result<(), RunFault>
    requires { StandsIdle (R.own_log recorder.old) core.old (S.StableRecord.finds stable.old) (S.StableRecord.stuck_of stable.old) }
    ensures turns { let before = moment core.old (R.own_log recorder.old) (S.StableRecord.finds stable.old) (S.StableRecord.stuck_of stable.old) (S.StableRecord.spent_of stable.old) (S.StableRecord.failures_of stable.old) (L.given link.old) in
        let after = moment core.new (R.own_log recorder.new) (S.StableRecord.finds stable.new) (S.StableRecord.stuck_of stable.new) (S.StableRecord.spent_of stable.new) (S.StableRecord.failures_of stable.new) (L.given link.new) in
        Turns result before after }
{
    let Ok(message) = decode(&parcel.frame) else {
        return Ok(());
    };
    if !message.is_for_node(core.node()) {
        return Ok(());
    }
    take_turn(
        alloc,
        parcel.number,
        &message,
        core,
        stable,
        recorder,
        link,
        gate,
    )
}

/// Does what a post asks for. A nudge and a node that is gone are dropped.
#[tactic(auto, using(actor_steps::proofs::SendingFacts::follows_none, crate::proofs::KeepFacts::stands_own))]
pub(crate) fn attend<S: OwnRecord, R: Recorder, L: Link, G: Gate>(
    alloc: Global,
    post: Post,
    core: &mut NodeCore,
    stable: &mut S,
    recorder: &mut R,
    link: &mut L,
    gate: &G,
) -> Result<(), RunFault>
    requires { StandsIdle (R.own_log recorder.old) core.old (S.StableRecord.finds stable.old) (S.StableRecord.stuck_of stable.old) }
    ensures turns { let before = moment core.old (R.own_log recorder.old) (S.StableRecord.finds stable.old) (S.StableRecord.stuck_of stable.old) (S.StableRecord.spent_of stable.old) (S.StableRecord.failures_of stable.old) (L.given link.old) in
        let after = moment core.new (R.own_log recorder.new) (S.StableRecord.finds stable.new) (S.StableRecord.stuck_of stable.new) (S.StableRecord.spent_of stable.new) (S.StableRecord.failures_of stable.new) (L.given link.new) in
        Turns result before after }
{
    match post {
        Post::Parcel(parcel) => parcel_turn(alloc, &parcel, core, stable, recorder, link, gate),
        Post::Switch(number) => switch_turn(alloc, number, core, stable, recorder, link, gate),
        Post::Nudge(_) | Post::Gone(_) => Ok(()),
    }
}

// Asking nodes for their votes.

ghost use Rattle.std.specs.Prelude.{◌≡◌, ◌≤◌, true, false, Ok, Err, OnOk, IfErr};
ghost use Rattle.lock_model.specs.Ballots.{HasPlace};
ghost use Rattle.client_core.specs.Calls.{MayEnter};
ghost use Rattle.client_loop.specs.Sendings.{SendsBy, SentFollows, SentUnlessMemory};
ghost use Rattle.client_loop.specs.Standing.{Stands};
ghost use Rattle.client_loop.specs.Remembering.{KeepsAsking, HasHadLast};
ghost use Rattle.client_loop.specs.Visits.{GoesOnQuietly, visits_of};
ghost use Rattle.client_core.specs.Clients.{phase_of, ticket_of};
ghost use Rattle.client_loop.specs.Endings.{IsAskFault};
ghost use Rattle.client_loop.specs.Nodes.{CanSuffice};
ghost use Rattle.actor_steps.specs.Steps.{IsBookFault};
ghost use Rattle.actor_steps.specs.Endings.{falls_of};
ghost use Rattle.client_loop.specs.Talking.{TalksBy, Says, EndsAskingFor};

use crate::posts::take_post;
use crate::progress::Progress;
use crate::talking::tell;
use event_lines::Wish;
use event_recorders::{OwnRecord, Recorder, RunFault};
use lock_messages::{NodeId, ResourceName};
use lossy_link::Link;
use std::alloc::Global;
use std::sync::Wait;

/// Whether the nodes that granted, and those that were asked and aren't gone, are enough for the wish.
fn awaits_enough(wish: &Wish, progress: &Progress) -> bool {
    let Some(ballot) = progress.core.ballots().ballot(wish.place) else {
        return false;
    };
    let mut awaited = progress.granted;
    for number in 1..=ballot.nodes() {
        let Some(node) = NodeId::of(number) else {
            return false;
        };
        if progress.asked.has(node) && !progress.gone.has(node) {
            awaited = awaited.with(node);
        }
    }
    ballot.enough(wish.mode, awaited)
}

/// Asks the node that is to be asked next, unless it was asked already, or those that were asked are enough.
#[tactic(auto, using(crate::proofs::TalkFacts::talks_still))]
fn ask_on<S: OwnRecord, R: Recorder, L: Link>(
    alloc: Global,
    wish: &Wish,
    progress: &mut Progress,
    stable: &S,
    recorder: &mut R,
    link: &mut L,
) -> Result<(), RunFault>
    requires { Stands (R.own_log recorder.old) (S.StableRecord.finds stable.now) progress.old.core }
    ensures says { Says result (R.own_log recorder.old) (R.own_log recorder.new) (L.given link.old) (L.given link.new) (S.StableRecord.finds stable.now) progress.new.core }
    ensures keeps { KeepsAsking progress.old progress.new }
{
    if awaits_enough(wish, progress) {
        return Ok(());
    }
    let Some(node) = progress.core.next_ask() else {
        return Ok(());
    };
    if progress.asked.has(node) {
        return Ok(());
    }
    tell(alloc, &progress.core, node, stable, recorder, link)?;
    progress.asked = progress.asked.with(node);
    Ok(())
}

/// The node with which asking for a resource begins, if several are asked at once: its name picks one of so many. So all
/// nodes of a service have their share of the work.
fn first_asked(resource: &ResourceName, nodes: u8) -> u8
    requires { 1 ≤ nodes }
    ensures node { 1 ≤ result }
    ensures some_node { result ≤ nodes }
{
    let mut sum = 0_u32;
    for byte in resource.bytes() {
        sum = sum.wrapping_add(u32::from(*byte));
    }
    (sum % u32::from(nodes)) as u8 + 1
}

/// Asks at once as many nodes as the wish needs by its ballot, without those that are gone. It begins with the node that
/// the resource's name picks, and goes on with the first node after the last.
#[tactic(auto, using(crate::proofs::Steps::talking))]
fn ask_together<S: OwnRecord, R: Recorder, L: Link>(
    alloc: Global,
    wish: &Wish,
    progress: &mut Progress,
    stable: &S,
    recorder: &mut R,
    link: &mut L,
) -> Result<(), RunFault>
    requires { Stands (R.own_log recorder.old) (S.StableRecord.finds stable.now) progress.old.core }
    ensures says { Says result (R.own_log recorder.old) (R.own_log recorder.new) (L.given link.old) (L.given link.new) (S.StableRecord.finds stable.now) progress.new.core }
    ensures others { progress.new ≡ record progress.old { asked = progress.new.asked } }
{
    let Some(ballot) = progress.core.ballots().ballot(wish.place) else {
        return Ok(());
    };
    let first = first_asked(&wish.resource, ballot.nodes());
    for number in (first..=ballot.nodes()).chain(1..first) {
        let Some(node) = NodeId::of(number) else {
            return Ok(());
        };
        if ballot.enough(wish.mode, progress.asked) {
            return Ok(());
        }
        if !progress.gone.has(node) {
            tell(alloc, &progress.core, node, stable, recorder, link)?;
            progress.asked = progress.asked.with(node);
        }
    }
    Ok(())
}

/// Asks one node after another until the votes are enough for the wish, or, where it isn't to wait, until a
/// node lets it wait; whether they are enough. Where it isn't to wait it begins with as many at once as the wish
/// needs: two clients that ask so never wait for each other. 912: the nodes that granted and those that aren't gone are not
/// enough.
#[tactic(auto, using(crate::proofs::Steps::talking, crate::proofs::NudgeFacts::book_has_none))]
pub(crate) fn ask<W: Wait, S: OwnRecord, R: Recorder, L: Link>(
    rt: &W,
    alloc: Global,
    wish: &Wish,
    waits: bool,
    progress: &mut Progress,
    stable: &S,
    recorder: &mut R,
    link: &mut L,
) -> Result<bool, RunFault>
    requires stands { Stands (R.own_log recorder.old) (S.StableRecord.finds stable.now) progress.old.core }
    requires placed { HasPlace (R.own_log recorder.old).ballots wish.now.place }
    ensures may_enter { result ≡ Ok true → MayEnter progress.new.core }
    // A wish is taken back only if it is not to wait, and a node let it wait.
    ensures busy { result ≡ Ok false → (waits ≡ false) × (progress.new.busy ≡ true) }
    ensures talks { TalksBy result (R.own_log recorder.old) (R.own_log recorder.new) (L.given link.old) (L.given link.new) (S.StableRecord.finds stable.now) progress.new.core }
    ensures keeps { KeepsAsking progress.old progress.new }
    ensures ended { IfErr result (λ f. EndsAskingFor wish.now f progress.new) }
{
    if !waits {
        ask_together(alloc, wish, progress, stable, recorder, link)?;
    }
    for _ in rt.forever() {
        if progress.core.may_enter() {
            return Ok(true);
        }
        if progress.busy && !waits {
            return Ok(false);
        }
        if !progress.can_suffice(wish.place, wish.mode) {
            return Err(RunFault::TooFewNodes);
        }
        ask_on(alloc, wish, progress, stable, recorder, link)?;
        take_post(alloc, progress, stable, recorder, link)?;
    }
    unreachable!()
}

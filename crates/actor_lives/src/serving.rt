// A client that obeys commands.

ghost use Rattle.std.specs.Prelude.{◌≡◌, true, Ok, Some, OnOk, IfOk, IfErr};
ghost use Rattle.client_loop.specs.Endings.{EndsOneAttempt};
ghost use Rattle.lock_model.specs.Ballots.{HasPlace};
ghost use Rattle.client_loop.specs.Visits.{AsksFor};
ghost use Rattle.lock_session.specs.Guards.{IsHeld, guard_ticket, lender_of, session_of};
ghost use Rattle.lock_session.specs.Sessions.{IsResting, over_by};
ghost use Rattle.actor_lives.specs.Serving.{GoesOn, RestsAgain, IsOverBy, EndsLife, OwesTo, HasAnswered, use_in};

use crate::desks::{Asked, Desk, Refusal};
use crate::memos::Memo;
use crate::owing::{all_nodes, has_any, still_owing};
use client_commands::{Command, Entry, Waiting};
use event_recorders::{Recorder, RunFault};
use lock_messages::Mode;
use lock_session::{OwnRecord, Session, SessionGuard, TryFault};
use lossy_link::Link;
use std::alloc::Global;
use std::sync::Wait;
use vote_weights::NodeSet;

/// The number of a ballot that there is not.
const NO_SUCH_PLACE: u16 = 703;

/// How many nudges an attempt may have: the link brings one when the client is to stop waiting.
const NUDGES: u32 = 1;

/// How an attempt to get a lock ended.
#[derive(Clone, Copy, Debug, PartialEq, Eq)]
enum AttemptEnd {
    /// The client was inside, and a command let it leave.
    Left,
    /// The client was inside, and the commands ended.
    Ended,
    /// A node queued the request, and it was not to wait.
    Busy,
    /// It was to stop waiting.
    GaveUp,
    /// Too few nodes answer.
    TooFew,
    /// There is no such ballot.
    NoPlace,
}

/// What an attempt came to that ended by this fault. Faults that end the session are passed on.
fn ended_attempt(fault: RunFault) -> Result<AttemptEnd, RunFault>
    ensures one { OnOk result (EndsOneAttempt fault) }
    ensures over { IfErr result (λ f. (f ≡ fault) × (over_by f ≡ Some f)) }
{
    match fault {
        RunFault::GaveUp => Ok(AttemptEnd::GaveUp),
        RunFault::TooFewNodes => Ok(AttemptEnd::TooFew),
        RunFault::NotReopened | RunFault::Memory | RunFault::Book | RunFault::Spent => Err(fault),
    }
}

/// Obeys commands while the client is inside, until one lets it leave; whether one did.
#[tactic(auto, using(crate::proofs::ServingFacts::goes_none, crate::proofs::ServingFacts::softened_on, crate::proofs::ServingFacts::softening_ended))]
fn stay<W: Wait, S: OwnRecord, R: Recorder, L: Link, D: Desk>(
    rt: &W,
    alloc: Global,
    guard: &mut SessionGuard<'_, S, R, L>,
    desk: &mut D,
) -> Result<bool, RunFault>
    requires { IsHeld guard.old }
    ensures lender { lender_of guard.new ≡ lender_of guard.old }
    ensures on { OnOk result (GoesOn (session_of guard.old) (session_of guard.new)) }
    ensures over { IfErr result (λ f. IsOverBy f (session_of guard.old) (session_of guard.new)) }
{
    for _ in rt.forever() {
        match desk.next(rt, true) {
            Asked::Ended => return Ok(false),
            Asked::Command(Command::Leave) => return Ok(true),
            Asked::Command(Command::Status) => desk.status(guard.session()),
            Asked::Command(Command::Soften) if guard.ticket().mode == Mode::Write => {
                guard.soften(alloc)?;
                desk.softened(guard);
            }
            Asked::Command(_) | Asked::Unknown => desk.unknown(),
            Asked::Nothing => {}
        }
    }
    unreachable!()
}

/// Says that the client is inside, and obeys commands until one lets it leave or they end; whether one did.
fn hold<W: Wait, S: OwnRecord, R: Recorder, L: Link, D: Desk>(
    rt: &W,
    alloc: Global,
    entry: &Entry,
    guard: &mut SessionGuard<'_, S, R, L>,
    desk: &mut D,
) -> Result<bool, RunFault>
    requires held { IsHeld guard.old }
    requires asked { AsksFor (use_in entry.now) (guard_ticket guard.old) }
    ensures lender { lender_of guard.new ≡ lender_of guard.old }
    ensures on { OnOk result (GoesOn (session_of guard.old) (session_of guard.new)) }
    ensures over { IfErr result (λ f. IsOverBy f (session_of guard.old) (session_of guard.new)) }
{
    desk.end_wait();
    desk.inside(entry, guard);
    let stayed = stay(rt, alloc, guard, desk);
    desk.begin_release(true);
    stayed
}

/// What an attempt came to whose client was inside, by how it stayed and how it left.
fn ended_inside(
    stayed: Result<bool, RunFault>,
    left: Result<(), RunFault>,
) -> Result<AttemptEnd, RunFault>
    ensures one { OnOk result (IfErr left EndsOneAttempt) }
    ensures over { IfErr result (EndsLife left) }
{
    if let Err(fault) = left {
        ended_attempt(fault)?;
    }
    match stayed {
        Ok(true) => Ok(AttemptEnd::Left),
        Ok(false) | Err(_) => Ok(AttemptEnd::Ended),
    }
}

/// Asks several nodes at once for the lock, and does not wait. If the client gets it, it is inside until a command lets
/// it leave or the commands end.
#[tactic(auto, using(crate::proofs::Steps::trying))]
fn attempt_together<W: Wait, S: OwnRecord, R: Recorder, L: Link, D: Desk>(
    rt: &W,
    alloc: Global,
    entry: &Entry,
    session: &mut Session<S, R, L>,
    desk: &mut D,
) -> Result<AttemptEnd, RunFault>
    requires { HasPlace session.old.ballots entry.now.place }
    ensures rests { OnOk result (RestsAgain session.old session.new) }
    ensures over { IfErr result (λ f. IsOverBy f session.old session.new) }
{
    match session.try_enter(rt, alloc, entry.mode, entry.resource, entry.place, NUDGES) {
        Ok(guard) => {
            let mut guard = guard;
            let stayed = hold(rt, alloc, entry, &mut guard, desk);
            let left = guard.leave(rt, alloc);
            desk.end_wait();
            ended_inside(stayed, left)
        }
        Err(TryFault::Busy) => Ok(AttemptEnd::Busy),
        Err(TryFault::Ended(fault)) => ended_attempt(fault),
    }
}

/// Asks one node after another for the lock, and waits. Then it does what `attempt_together` does.
#[tactic(auto, using(crate::proofs::Steps::entering))]
fn attempt_in_turn<W: Wait, S: OwnRecord, R: Recorder, L: Link, D: Desk>(
    rt: &W,
    alloc: Global,
    entry: &Entry,
    session: &mut Session<S, R, L>,
    desk: &mut D,
) -> Result<AttemptEnd, RunFault>
    requires { HasPlace session.old.ballots entry.now.place }
    ensures rests { OnOk result (RestsAgain session.old session.new) }
    ensures over { IfErr result (λ f. IsOverBy f session.old session.new) }
{
    match session.enter(rt, alloc, entry.mode, entry.resource, entry.place, NUDGES) {
        Ok(guard) => {
            let mut guard = guard;
            let stayed = hold(rt, alloc, entry, &mut guard, desk);
            let left = guard.leave(rt, alloc);
            desk.end_wait();
            ended_inside(stayed, left)
        }
        Err(fault) => ended_attempt(fault),
    }
}

/// Asks for the lock once: several nodes at once and without waiting, or one after another.
#[tactic(auto, using(crate::proofs::ServingFacts::rests_none))]
fn attempt<W: Wait, S: OwnRecord, R: Recorder, L: Link, D: Desk>(
    rt: &W,
    alloc: Global,
    entry: &Entry,
    together: bool,
    session: &mut Session<S, R, L>,
    desk: &mut D,
) -> Result<AttemptEnd, RunFault>
    requires { IsResting session.old }
    ensures rests { OnOk result (RestsAgain session.old session.new) }
    ensures over { IfErr result (λ f. IsOverBy f session.old session.new) }
{
    if entry.place == 0 || session.ballots().count() < entry.place {
        return Ok(AttemptEnd::NoPlace);
    }
    if together {
        attempt_together(rt, alloc, entry, session, desk)
    } else {
        attempt_in_turn(rt, alloc, entry, session, desk)
    }
}

/// Says the release of the last attempt to the nodes that have to answer it yet, and returns those that still have to.
#[tactic(auto, using(crate::proofs::Steps::releasing))]
fn release<W: Wait, S: OwnRecord, R: Recorder, L: Link, D: Desk>(
    rt: &W,
    alloc: Global,
    nodes: NodeSet,
    is_long: bool,
    session: &mut Session<S, R, L>,
    desk: &mut D,
) -> Result<NodeSet, RunFault>
    requires rests { IsResting session.old }
    requires owing { OwesTo session.old nodes }
    ensures rests { OnOk result (RestsAgain session.old session.new) }
    ensures over { IfErr result (λ f. IsOverBy f session.old session.new) }
    ensures owing { IfOk result (λ owing. OwesTo session.new owing) }
{
    if !has_any(&session.ballots(), nodes) {
        return Ok(nodes);
    }
    session.expect_all();
    desk.begin_release(is_long);
    let told = session.release_at(rt, alloc, nodes, NUDGES);
    desk.end_wait();
    if let Err(fault) = told {
        ended_attempt(fault)?;
    }
    Ok(still_owing(session, NodeSet::empty()))
}

/// Says the release again to the nodes that have not answered it.
fn remind<W: Wait, S: OwnRecord, R: Recorder, L: Link, D: Desk>(
    rt: &W,
    alloc: Global,
    memo: &mut Memo,
    session: &mut Session<S, R, L>,
    desk: &mut D,
) -> Result<(), RunFault>
    requires rests { IsResting session.old }
    requires owing { OwesTo session.old memo.old.owing }
    ensures rests { OnOk result (RestsAgain session.old session.new) }
    ensures over { IfErr result (λ f. IsOverBy f session.old session.new) }
    ensures owing { OnOk result (OwesTo session.new memo.new.owing) }
{
    memo.owing = release(rt, alloc, memo.owing, false, session, desk)?;
    Ok(())
}

/// Says how an attempt ended, and returns whether it was the last one for the command.
#[tactic(auto, using(crate::proofs::ServingFacts::rests_outside))]
fn tell_end<S: OwnRecord, R: Recorder, L: Link, D: Desk>(
    end: AttemptEnd,
    waiting: Waiting,
    session: &Session<S, R, L>,
    desk: &mut D,
) -> bool
    requires { IsResting session.now }
{
    match end {
        AttemptEnd::Left => desk.outside(session),
        AttemptEnd::Ended => {}
        AttemptEnd::NoPlace => desk.refused(Refusal::Fault(NO_SUCH_PLACE), session),
        AttemptEnd::Busy if waiting == Waiting::Never => desk.refused(Refusal::Busy, session),
        AttemptEnd::TooFew if waiting == Waiting::Never => {
            desk.refused(Refusal::Fault(RunFault::TooFewNodes.number()), session);
        }
        AttemptEnd::GaveUp | AttemptEnd::TooFew if desk.is_over() => {
            desk.refused(Refusal::Late, session);
        }
        AttemptEnd::Busy | AttemptEnd::GaveUp | AttemptEnd::TooFew => return false,
    }
    true
}

/// Says the release again to the nodes that have not answered it, and makes an attempt.
///
/// If a node still has not answered, the attempt is short. A node that has a vote for an attempt before would let others
/// wait for this client, while it waits for them.
#[tactic(auto, using(crate::proofs::ServingFacts::rests_on, crate::proofs::ServingFacts::over_again, crate::proofs::ServingFacts::owing_to))]
fn attempt_free<W: Wait, S: OwnRecord, R: Recorder, L: Link, D: Desk>(
    rt: &W,
    alloc: Global,
    entry: &Entry,
    together: bool,
    memo: &mut Memo,
    session: &mut Session<S, R, L>,
    desk: &mut D,
) -> Result<AttemptEnd, RunFault>
    requires rests { IsResting session.old }
    requires owing { OwesTo session.old memo.old.owing }
    ensures rests { OnOk result (RestsAgain session.old session.new) }
    ensures over { IfErr result (λ f. IsOverBy f session.old session.new) }
    ensures owing { OnOk result (OwesTo session.new memo.new.owing) }
{
    remind(rt, alloc, memo, session, desk)?;
    desk.begin_attempt(has_any(&session.ballots(), memo.owing));
    let end = attempt(rt, alloc, entry, together, session, desk);
    desk.end_wait();
    memo.owing = still_owing(session, memo.owing);
    end
}

/// Asks for the lock until the client had it, or is to stop waiting, and answers which.
///
/// It asks several nodes at once first. If one of them lets it wait, it takes that back and asks one node after another,
/// now and for the next few locks, so that no two clients wait for each other.
#[tactic(auto, using(crate::proofs::ServingFacts::rests_none, crate::proofs::ServingFacts::rests_on, crate::proofs::ServingFacts::over_again))]
fn enter<W: Wait, S: OwnRecord, R: Recorder, L: Link, D: Desk>(
    rt: &W,
    alloc: Global,
    entry: &Entry,
    memo: &mut Memo,
    session: &mut Session<S, R, L>,
    desk: &mut D,
) -> Result<(), RunFault>
    requires rests { IsResting session.old }
    requires owing { OwesTo session.old memo.old.owing }
    ensures rests { OnOk result (RestsAgain session.old session.new) }
    ensures over { IfErr result (λ f. IsOverBy f session.old session.new) }
    ensures owing { OnOk result (OwesTo session.new memo.new.owing) }
{
    desk.begin_wait(entry.waiting);
    let mut together = memo.asks_together() || entry.waiting == Waiting::Never;
    for _ in rt.forever() {
        let end = attempt_free(rt, alloc, entry, together, memo, session, desk)?;
        if tell_end(end, entry.waiting, session, desk) {
            break;
        }
        if end == AttemptEnd::Busy {
            memo.note_crowd();
            together = false;
        } else {
            desk.pause(rt);
            session.expect_all();
        }
    }
    Ok(())
}

/// Obeys a command while the client is outside.
#[tactic(auto, using(crate::proofs::ServingFacts::rests_none, crate::proofs::ServingFacts::rests_outside))]
fn obey<W: Wait, S: OwnRecord, R: Recorder, L: Link, D: Desk>(
    rt: &W,
    alloc: Global,
    command: Command,
    memo: &mut Memo,
    session: &mut Session<S, R, L>,
    desk: &mut D,
) -> Result<(), RunFault>
    requires rests { IsResting session.old }
    requires owing { OwesTo session.old memo.old.owing }
    ensures rests { OnOk result (RestsAgain session.old session.new) }
    ensures over { IfErr result (λ f. IsOverBy f session.old session.new) }
    ensures owing { OnOk result (OwesTo session.new memo.new.owing) }
{
    match command {
        Command::Enter(entry) => enter(rt, alloc, &entry, memo, session, desk),
        Command::Leave => {
            desk.outside(session);
            Ok(())
        }
        Command::Status => {
            desk.status(session);
            Ok(())
        }
        Command::Soften => {
            desk.unknown();
            Ok(())
        }
    }
}

/// Takes what the desk brings, and returns whether it brings more.
#[tactic(auto, using(crate::proofs::ServingFacts::rests_none))]
fn take_next<W: Wait, S: OwnRecord, R: Recorder, L: Link, D: Desk>(
    rt: &W,
    alloc: Global,
    memo: &mut Memo,
    session: &mut Session<S, R, L>,
    desk: &mut D,
) -> Result<bool, RunFault>
    requires rests { IsResting session.old }
    requires owing { OwesTo session.old memo.old.owing }
    ensures rests { OnOk result (RestsAgain session.old session.new) }
    ensures over { IfErr result (λ f. IsOverBy f session.old session.new) }
    ensures owing { OnOk result (OwesTo session.new memo.new.owing) }
{
    let waits = !has_any(&session.ballots(), memo.owing);
    match desk.next(rt, waits) {
        Asked::Ended => return Ok(false),
        Asked::Nothing => remind(rt, alloc, memo, session, desk)?,
        Asked::Unknown => desk.unknown(),
        Asked::Command(command) => obey(rt, alloc, command, memo, session, desk)?,
    }
    Ok(true)
}

/// Obeys the commands of a desk until they end, and returns whether each node has answered the last release. First it
/// releases what the last life of the client held.
///
/// While a node has not answered a release, it says it again between commands. When the commands end it does so once
/// more. Votes that a node then still has for the client are released by the client's next life.
///
/// The caller owes a session that rests. At the end it rests, or is over by the fault. What was sent is what its log tells.
///
/// # Errors
///
/// The session is over by this fault: 911, 914, 915 or 916.
#[tactic(auto, using(crate::proofs::Steps::serving))]
pub fn serve_client<W: Wait, S: OwnRecord, R: Recorder, L: Link, D: Desk>(
    rt: &W,
    alloc: Global,
    session: &mut Session<S, R, L>,
    desk: &mut D,
) -> Result<bool, RunFault>
    requires { IsResting session.old }
    ensures rests { OnOk result (RestsAgain session.old session.new) }
    ensures over { IfErr result (λ f. IsOverBy f session.old session.new) }
    ensures answered { result ≡ Ok true → HasAnswered session.new }
{
    let all = all_nodes(&session.ballots());
    let mut memo = Memo::of(release(rt, alloc, all, true, session, desk)?);
    for _ in rt.forever() {
        if !take_next(rt, alloc, &mut memo, session, desk)? {
            break;
        }
    }
    let owing = release(rt, alloc, memo.owing, true, session, desk)?;
    Ok(!has_any(&session.ballots(), owing))
}

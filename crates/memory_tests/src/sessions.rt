// A client's session beside nobody: 914. After a refusal it has not risen, and its parts come back; or it is over,
// answers the same again, and is asked for nothing more. What it does beside a node is tried in session_tests.

ghost use Rattle.std.specs.Prelude.{◌≡◌, IfOk};
ghost use Rattle.book_recorders.specs.Alone.{IsAlone};
ghost use Rattle.book_recorders.specs.Sharing.{log_of};
ghost use Rattle.memory_tests.specs.Fresh.{IsNewClient, one_node_world, one_node};

use crate::failures::{Failure, Outcome, check, refused};
use book_recorders::{Logs, OwnBookRecorder, open_alone};
use event_recorders::{Recorder, RunFault};
use history_book::{Berth, Book, BookFault};
use lock_messages::{Actor, Mode};
use lock_model::Problem;
use lock_session::{OwnRecord, Session, TryFault};
use lossy_link::{Link, ListLink};
use stable_record::{MemoryRecord, StableRecord, client_bytes};
use std::alloc::Global;
use std::sync::Wait;
use test_outcomes::client_id;
use test_support::{ballots_of, new_world, resource};
use vote_weights::BallotList;
use world_machine::World;

/// How a session is asked.
#[derive(Clone, Copy)]
enum Asking {
    Nothing,
    Enter(&'static [u8]),
    Try(&'static [u8]),
}

/// The list of one ballot: a node with a vote, which is enough to read and to write.
fn ballots() -> Result<BallotList, Failure>
    ensures { IfOk result (λ b. b ≡ one_node) }
{
    Ok(ballots_of(&[1], 1, 1)?)
}

/// A world of that ballot and of one client, in which nothing has happened.
fn world(alloc: Global, ballots: BallotList) -> Result<World, Failure>
    requires { ballots ≡ one_node }
    ensures { IfOk result (λ w. w ≡ one_node_world ballots) }
{
    Ok(new_world(alloc, ballots, Problem::First, 1)?)
}

/// c1's own book over such a world, and its berth.
fn own_book(alloc: Global, ballots: BallotList) -> Result<(Book, Berth), Failure>
    requires { ballots ≡ one_node }
    ensures alone { IfOk result (λ r. IsAlone r.0 r.1) }
    ensures log { IfOk result (λ r. IsNewClient ballots (log_of r.1)) }
{
    let client = client_id(1);
    match open_alone(alloc, world(alloc, ballots)?, Actor::Client(client)) {
        Ok(Some(opened)) => Ok(opened),
        Err(BookFault::Memory) => Err(Failure::Memory),
        _ => Err(Failure::Wrong),
    }
}

/// Ends the test unless the session ended as one that nobody answers: it has too few nodes (912), and goes on.
/// Where memory is refused it is over by that.
fn has_asked<W: Wait, S: OwnRecord, R: Recorder, L: Link>(
    rt: &W,
    alloc: Global,
    session: &mut Session<S, R, L>,
    fault: RunFault,
) -> Outcome {
    if fault != RunFault::Memory {
        return check(fault == RunFault::TooFewNodes && session.ended().is_none());
    }
    let again = session.settle(rt, alloc);
    let over = Some(RunFault::Memory);
    refused(again == Err(RunFault::Memory) && session.ended() == over)
}

/// Asks the session, to which nobody answers.
fn ask<W: Wait, S: OwnRecord, R: Recorder, L: Link>(
    rt: &W,
    alloc: Global,
    session: &mut Session<S, R, L>,
    how: Asking,
) -> Outcome {
    if session.ballots().count() < 1 {
        return Err(Failure::Wrong);
    }
    let fault = match how {
        Asking::Nothing => return check(session.ended().is_none()),
        Asking::Enter(name) => {
            let name = resource(name)?;
            match session.enter(rt, alloc, Mode::Write, name, 1, 10) {
                Ok(_) => return Err(Failure::Wrong),
                Err(fault) => fault,
            }
        }
        Asking::Try(name) => {
            let name = resource(name)?;
            match session.try_enter(rt, alloc, Mode::Write, name, 1, 10) {
                Ok(_) | Err(TryFault::Busy) => return Err(Failure::Wrong),
                Err(TryFault::Ended(fault)) => fault,
            }
        }
    };
    has_asked(rt, alloc, session, fault)
}

/// Ends the test by want of memory, where a session has not risen for that and a restart finds in its record what
/// it found.
fn is_back<S: StableRecord>(fault: RunFault, stable: S) -> Outcome {
    let mut stable = stable;
    let found = stable.reopen()?;
    refused(fault == RunFault::Memory && found.as_slice() == client_bytes(0).as_slice())
}

/// c1's session, and what comes of asking it: the book of its own comes back.
fn run<K: Logs + Drop, W: Wait>(
    rt: &W,
    alloc: Global,
    ballots: BallotList,
    own: (K, Berth),
    how: Asking,
) -> Result<(K, Outcome), Failure>
    requires alone { IsAlone (K.book own.0) own.1 }
    requires log { IsNewClient ballots (log_of own.1) }
{
    let client = client_id(1);
    let stable = MemoryRecord::holding(alloc, &client_bytes(0))?;
    let (book, berth) = own;
    let recorder = OwnBookRecorder::over(book, berth);
    let link = ListLink::of(Vec::new(alloc));
    match Session::rise(client, ballots, stable, recorder, link) {
        Ok(session) => {
            let mut session = session;
            let asked = ask(rt, alloc, &mut session, how);
            let (_, recorder, _) = session.into_parts();
            Ok((recorder.into_book(), asked))
        }
        Err(back) => Ok((back.recorder.into_book(), is_back(back.fault, back.stable))),
    }
}

/// Ends the test unless so many events were logged; fewer where the session was asked for nothing more.
fn has_logged(asked: Outcome, logged: u32, events: u32) -> Outcome {
    match asked {
        Ok(()) => check(logged == events),
        Err(_) if logged >= events => Err(Failure::Wrong),
        Err(failure) => Err(failure),
    }
}

/// Ends the test unless a session that is asked so logs so many events; fewer where memory is refused.
fn logs<W: Wait>(rt: &W, alloc: Global, how: Asking, events: u32) -> Outcome {
    let ballots = ballots()?;
    let own = own_book(alloc, ballots)?;
    let (book, asked) = run::<Book, W>(rt, alloc, ballots, own, how)?;
    has_logged(asked, book.events(), events)
}

#[test]
fn rise_in_a_session(rt: HostRuntime) -> Outcome {
    logs(&rt, rt.alloc(), Asking::Nothing, 1)
}

/// It logs its Rise, a Begin, a Try, a Kept, the request, and the Leave.
#[test]
fn enter_in_a_session(rt: HostRuntime) -> Outcome {
    logs(&rt, rt.alloc(), Asking::Enter(b"b"), 6)
}

#[test]
fn enter_in_a_session_with_the_longest_name(rt: HostRuntime) -> Outcome {
    let name = b"abcdefghijklmnopqrstuvwxyz-01234";
    logs(&rt, rt.alloc(), Asking::Enter(name), 6)
}

#[test]
fn try_to_enter_in_a_session(rt: HostRuntime) -> Outcome {
    logs(&rt, rt.alloc(), Asking::Try(b"b"), 6)
}

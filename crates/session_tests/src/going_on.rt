// A service that has ended, and the next one, which goes on from what was kept.

ghost use Rattle.std.specs.Prelude.{◌≡◌, ◌≤◌, length, IfOk};
ghost use Rattle.lock_messages.specs.declared.ids.TheConstants.{MAX_ATTEMPT};
ghost use Rattle.session_tests.specs.Fresh.{one_node};

use crate::kept::{Kept, client_records_of, kept_in, node_records_of, resumed};
use crate::programs::{FAIR, end_of};
use crate::worlds::{ballots, world};
use book_support::journal_of;
use event_recorders::SharedRecorder;
use lock_messages::{Mode, ResourceName};
use lock_session::{OwnRecord, Session};
use lossy_link::Link;
use node_threads::laws::resumed_worlds_may_run;
use node_threads::{ServiceEnd, Work, with_sessions};
use stable_record::{MemoryRecord, client_bytes};
use std::alloc::Global;
use std::sync::Wait;
use std::thread::Threads;
use test_outcomes::{Failure, Outcome, check_row};
use test_support::{plain_pairs, resource, weather};
use vote_weights::BallotList;
use world_machine::World;

/// Each session writes once.
#[derive(Drop)]
struct WriteOnce {
    name: ResourceName,
}

impl Work for WriteOnce {
    fn work<W: Wait, S: OwnRecord, R: SharedRecorder, L: Link>(
        &self,
        rt: &W,
        alloc: Global,
        session: &mut Session<S, R, L>,
    ) {
        if session.ballots().count() < 1 {
            return;
        }
        if let Ok(guard) = session.enter(rt, alloc, Mode::Write, self.name, 1, 1_000) {
            let _ = guard.leave(rt, alloc);
        }
    }
}

/// The next service, in the world that was resumed from what the actors have kept.
fn go_on<R: Threads + Wait + Copy + Send + Sync, J: Work + Sync>(
    rt: R,
    alloc: Global,
    ballots: BallotList,
    of_nodes: &[Vec<u8>],
    of_clients: &[Vec<u8>],
    work: &J,
) -> Result<ServiceEnd<MemoryRecord>, Failure>
    requires ballots { ballots ≡ one_node }
    requires node { length of_nodes.now ≡ 1 }
    requires clients { length of_clients.now ≡ 2 }
{
    let weather = weather(FAIR)?;
    let nodes = node_records_of(alloc, of_nodes)?;
    let clients = client_records_of(alloc, of_clients)?;
    let pairs = plain_pairs(alloc, 1)?;
    let world = resumed(alloc, ballots, of_nodes, of_clients)?;
    resumed_worlds_may_run();
    match with_sessions(
        rt, alloc, ballots, nodes, clients, world, pairs, weather, work,
    ) {
        Ok(end) => Ok(end),
        Err(_) => Err(Failure::Memory),
    }
}

/// Ends the test unless each client has made this attempt last.
fn have_made(kept: &[Vec<u8>], attempt: u64) -> Outcome
    requires { attempt ≤ MAX_ATTEMPT }
{
    for one in kept {
        check_row(one.as_slice() == client_bytes(attempt).as_slice(), 3)?;
    }
    Ok(())
}

/// What the actors have kept behind a service from this opening. Ends the test unless its journal is sound, each
/// session has written, and each client has made this attempt last.
fn kept_behind(
    alloc: Global,
    end: &ServiceEnd<MemoryRecord>,
    opening: World,
    attempt: u64,
) -> Result<Kept, Failure>
    requires { attempt ≤ MAX_ATTEMPT }
    ensures node { IfOk result (λ kept. length kept.nodes.items ≡ 1) }
    ensures clients { IfOk result (λ kept. length kept.clients.items ≡ 2) }
{
    journal_of(alloc, &end.book, opening)?;
    check_row(end.entered == 2 && end.faults.is_empty(), 1)?;
    let kept = kept_in(alloc, &end.book)?;
    have_made(kept.clients.as_slice(), attempt)?;
    Ok(kept)
}

/// What the actors have kept behind the first service.
fn kept_behind_the_first<R: Threads + Wait + Copy + Send + Sync, J: Work + Sync>(
    rt: R,
    alloc: Global,
    ballots: BallotList,
    work: &J,
) -> Result<Kept, Failure>
    requires { ballots ≡ one_node }
    ensures node { IfOk result (λ kept. length kept.nodes.items ≡ 1) }
    ensures clients { IfOk result (λ kept. length kept.clients.items ≡ 2) }
{
    let end = end_of(rt, alloc, ballots, weather(FAIR)?, work)?;
    let opening = world(alloc, ballots)?;
    kept_behind(alloc, &end, opening, 1)
}

/// Ends the test unless the next service goes on from there.
fn goes_on<R: Threads + Wait + Copy + Send + Sync, J: Work + Sync>(
    rt: R,
    alloc: Global,
    ballots: BallotList,
    kept: &Kept,
    work: &J,
) -> Outcome
    requires ballots { ballots ≡ one_node }
    requires node { length kept.now.nodes.items ≡ 1 }
    requires clients { length kept.now.clients.items ≡ 2 }
{
    let (nodes, clients) = (kept.nodes.as_slice(), kept.clients.as_slice());
    let end = go_on(rt, alloc, ballots, nodes, clients, work)?;
    let opening = resumed(alloc, ballots, nodes, clients)?;
    kept_behind(alloc, &end, opening, 2)?;
    Ok(())
}

/// The second service begins where the first one has ended: each client goes on behind its first attempt, and each
/// journal is sound from its own opening.
#[test]
fn goes_on_from_what_was_kept(rt: HostRuntime) -> Outcome {
    let work = WriteOnce {
        name: resource(b"a")?,
    };
    let ballots = ballots()?;
    let kept = kept_behind_the_first(rt, rt.alloc(), ballots, &work)?;
    goes_on(rt, rt.alloc(), ballots, &kept, &work)
}

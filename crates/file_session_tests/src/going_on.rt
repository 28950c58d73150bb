// A service with its records on files, and the next one, which goes on from these files.

ghost use Rattle.std.specs.Prelude.{◌≡◌, ◌∷◌, [], length, map, IfOk};
ghost use Rattle.world_machine.specs.Opened.{IsResumed};
ghost use Rattle.file_session_tests.specs.Ballots.{one_node};

use crate::opening::{Opened, Paths, make_all, open, open_all, paths_of, remove_all};
use event_recorders::SharedRecorder;
use lock_messages::{Actor, Mode, ResourceName};
use lock_session::{OwnRecord, Session};
use lossy_link::Link;
use node_threads::laws::resumed_worlds_may_run;
use node_threads::{ServiceEnd, Work, with_sessions};
use session_files::SessionFile;
use stable_record::{StableRecord, client_bytes};
use std::alloc::Global;
use std::fs::{File, Files};
use std::sync::Wait;
use std::thread::Threads;
use test_outcomes::{Failure, Outcome, check_row, node_id};
use test_support::{ballots_of, plain_pairs, resource, weather};
use vote_weights::BallotList;
use world_machine::World;

/// Each session writes once.
#[derive(Drop)]
struct WriteOnce {
    name: ResourceName,
}

impl Work for WriteOnce {
    fn work<W: Wait, S: OwnRecord, R: SharedRecorder, L: Link>(
        &self,
        rt: &W,
        alloc: Global,
        session: &mut Session<S, R, L>,
    ) {
        if session.ballots().count() < 1 {
            return;
        }
        if let Ok(guard) = session.enter(rt, alloc, Mode::Write, self.name, 1, 1_000) {
            let _ = guard.leave(rt, alloc);
        }
    }
}

/// The world in which the actors have kept this.
fn resumed(
    alloc: Global,
    ballots: BallotList,
    of_nodes: &[Vec<u8>],
    of_clients: &[Vec<u8>],
) -> Result<World, Failure>
    requires ballots { ballots ≡ one_node }
    requires node { length of_nodes.now ≡ 1 }
    requires clients { length of_clients.now ≡ 2 }
    ensures { IfOk result (IsResumed ballots (map (λ v. v.items) of_nodes.now) (map (λ v. v.items) of_clients.now)) }
{
    match World::resume(
        alloc,
        ballots,
        2,
        plain_pairs(alloc, 1)?,
        of_nodes,
        of_clients,
    ) {
        Ok(world) => Ok(world),
        Err(_) => Err(Failure::Memory),
    }
}

/// Runs the service over these records, in the world of what they hold.
fn serve<R: Threads + Wait + Copy + Send + Sync, J: Work + Sync>(
    rt: R,
    alloc: Global,
    ballots: BallotList,
    nodes: Vec<Box<dyn StableRecord + Send>>,
    clients: Vec<SessionFile>,
    of_nodes: &[Vec<u8>],
    of_clients: &[Vec<u8>],
    work: &J,
) -> Result<ServiceEnd<SessionFile>, Failure>
    requires ballots { ballots ≡ one_node }
    requires node { length of_nodes.now ≡ 1 }
    requires two { length of_clients.now ≡ 2 }
    requires nodes { map (λ r. finds r) nodes.items ≡ map (λ b. b.items ∷ []) of_nodes.now }
    requires clients { map (λ r. r.record.finds) clients.items ≡ map (λ b. b.items ∷ []) of_clients.now }
{
    let weather = weather((1, 0, 0, 0))?;
    let pairs = plain_pairs(alloc, 1)?;
    let world = resumed(alloc, ballots, of_nodes, of_clients)?;
    resumed_worlds_may_run();
    match with_sessions(
        rt, alloc, ballots, nodes, clients, world, pairs, weather, work,
    ) {
        Ok(end) => Ok(end),
        Err(_) => Err(Failure::Memory),
    }
}

/// Whether the file holds these bytes.
fn holds<F: Files<File = File>>(
    files: &F,
    alloc: Global,
    path: &str,
    bytes: &[u8],
    row: usize,
) -> Outcome {
    let (_record, found) = open(files, alloc, path)?;
    check_row(found.as_slice() == bytes, row)
}

/// Runs the service over the files once. Then the node's file holds what the node has kept by the log, and
/// each client's file its attempt of this number.
fn serves<R: Files<File = File> + Threads + Wait + Copy + Send + Sync>(
    rt: R,
    alloc: Global,
    paths: &Paths,
    work: &WriteOnce,
    attempt: u8,
) -> Outcome {
    let Opened {
        nodes,
        clients,
        of_nodes,
        of_clients,
    } = open_all(&rt, alloc, paths)?;
    let ballots = ballots_of(&[1], 1, 1)?;
    let end = serve(
        rt,
        alloc,
        ballots,
        nodes,
        clients,
        &of_nodes,
        &of_clients,
        work,
    )?;
    // Nothing fails here unless memory runs out.
    if !end.faults.is_empty() {
        return Err(Failure::Memory);
    }
    check_row(end.entered == 2 && end.records.len() == 2, 1)?;
    let ServiceEnd { book, records, .. } = end;
    drop(records);
    let Ok(kept) = book.world().kept_bytes(Actor::Node(node_id(1))) else {
        return Err(Failure::Memory);
    };
    holds(&rt, alloc, paths.node.as_str(), &kept, 2)?;
    let bytes = client_bytes(u64::from(attempt));
    holds(&rt, alloc, paths.one.as_str(), &bytes, 3)?;
    holds(&rt, alloc, paths.two.as_str(), &bytes, 4)
}

fn serves_twice<R: Files<File = File> + Threads + Wait + Copy + Send + Sync>(
    rt: R,
    alloc: Global,
    paths: &Paths,
) -> Outcome {
    let work = WriteOnce {
        name: resource(b"a")?,
    };
    make_all(&rt, alloc, paths)?;
    serves(rt, alloc, paths, &work, 1)?;
    serves(rt, alloc, paths, &work, 2)
}

/// The second service opens the files that the first one has left, and each client makes its second attempt.
#[test]
fn goes_on_from_files(rt: HostRuntime) -> Outcome {
    let paths = paths_of(&rt)?;
    let outcome = serves_twice(rt, rt.alloc(), &paths);
    remove_all(&rt, &paths);
    outcome
}

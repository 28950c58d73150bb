// A service of one node and two clients with a program's work inside, and what is seen of its end.

ghost use Rattle.std.specs.Prelude.{◌≡◌, ◌∷◌, [], map, IfOk};
ghost use Rattle.session_tests.specs.Fresh.{one_node};
ghost use Rattle.session_tests.specs.Programs.{node_found, clients_found};

use crate::boxed::boxed;
use crate::worlds::{ballots, world};
use book_support::journal_of;
use lossy_link::Weather;
use node_threads::{ServiceEnd, Work, with_sessions};
use stable_record::{MemoryRecord, StableRecord, client_bytes};
use std::alloc::Global;
use std::sync::Wait;
use std::thread::Threads;
use test_outcomes::Failure;
use test_support::{NOTHING_KEPT, in_memory, plain_pairs, weather};
use vote_weights::BallotList;

/// Nothing is lost, repeated or delayed.
pub(crate) const FAIR: (u64, u16, u16, u16) = (1, 0, 0, 0);

/// A service's end, and the journal of its book.
#[derive(Drop)]
pub(crate) struct Ended {
    pub(crate) end: ServiceEnd<MemoryRecord>,
    pub(crate) journal: Vec<u8>,
}

/// The record of the node, which has kept nothing.
pub(crate) fn node_records(alloc: Global) -> Result<Vec<Box<dyn StableRecord + Send>>, Failure>
    ensures { IfOk result (λ v. map (λ r. finds r) v.items ≡ node_found) }
{
    let mut records: Vec<Box<dyn StableRecord + Send>> = Vec::new(alloc);
    records.push(boxed(alloc, &NOTHING_KEPT)?)?;
    Ok(records)
}

/// The records of the clients, which have made no attempt.
fn client_records(alloc: Global) -> Result<Vec<MemoryRecord>, Failure>
    ensures { IfOk result (λ v. map (λ r. r ∷ []) v.items ≡ clients_found) }
{
    let mut records = Vec::new(alloc);
    records.push(in_memory(alloc, &client_bytes(0))?)?;
    records.push(in_memory(alloc, &client_bytes(0))?)?;
    Ok(records)
}

/// Runs the service with the work inside, in this weather.
pub(crate) fn end_of<R: Threads + Wait + Copy + Send + Sync, J: Work + Sync>(
    rt: R,
    alloc: Global,
    ballots: BallotList,
    weather: Weather,
    work: &J,
) -> Result<ServiceEnd<MemoryRecord>, Failure>
    requires { ballots ≡ one_node }
{
    let of_nodes = node_records(alloc)?;
    let of_clients = client_records(alloc)?;
    let pairs = plain_pairs(alloc, 1)?;
    let world = world(alloc, ballots)?;
    match with_sessions(
        rt, alloc, ballots, of_nodes, of_clients, world, pairs, weather, work,
    ) {
        Ok(end) => Ok(end),
        Err(_) => Err(Failure::Memory),
    }
}

/// Runs the service with the work inside, in this weather, and audits its journal. One for which memory was refused
/// ends the test by that.
pub(crate) fn run_in<R: Threads + Wait + Copy + Send + Sync, J: Work + Sync>(
    rt: R,
    alloc: Global,
    of: (u64, u16, u16, u16),
    work: &J,
) -> Result<Ended, Failure> {
    let weather = weather(of)?;
    let ballots = ballots()?;
    let end = end_of(rt, alloc, ballots, weather, work)?;
    let opening = world(alloc, ballots)?;
    let journal = journal_of(alloc, &end.book, opening)?;
    Ok(Ended { end, journal })
}

/// The same in fair weather.
pub(crate) fn run_program<R: Threads + Wait + Copy + Send + Sync, J: Work + Sync>(
    rt: R,
    alloc: Global,
    work: &J,
) -> Result<Ended, Failure> {
    run_in(rt, alloc, FAIR, work)
}

// A new service with the caller inside, by its settings.

ghost use Rattle.std.specs.Prelude.{◌≡◌, ◌≤◌, ◌∷◌, ◌++◌, [], None, length, map, replicate, IfOk, OnOk, IfErr};
ghost use Rattle.lock_messages.specs.declared.ids.TheConstants.{MAX_NODES, MAX_CLIENTS};
ghost use Rattle.lock_model.specs.Ballots.{node_count};
ghost use Rattle.history_book.specs.Books.{enters};
ghost use Rattle.world_model.specs.Locality.{IsHistory};
ghost use Rattle.world_settings.specs.Openings.{all_down};
ghost use Rattle.node_threads.specs.Faults.{AreFaults};
ghost use Rattle.node_threads.specs.Sessions.{AreRecords};
ghost use Rattle.run_service.specs.Empty.{empty_node, empty_client};

use crate::records::{empty_client_record, empty_node_record};
use admission_policy::Pair;
use event_recorders::RunFault;
use lock_messages::MAX_NODES;
use lock_session::OwnRecord;
use lossy_link::Weather;
use node_threads::{ServiceEnd, Work, with_sessions};
use stable_record::{MemoryRecord, StableRecord};
use std::alloc::{AllocError, Global};
use std::sync::Wait;
use std::thread::Threads;
use world_settings::{Policies, Settings, chosen, world_down};

/// Records in memory of so many clients that made no attempt yet. The only error is want of memory.
pub fn empty_client_records(alloc: Global, clients: u16) -> Result<Vec<MemoryRecord>, AllocError>
    ensures { IfOk result (λ all. map (λ m. m ∷ []) all.items ≡ replicate clients empty_client) }
{
    let mut all = Vec::new(alloc);
    for _ in 0..clients {
        all.push(empty_client_record(alloc)?)?;
    }
    Ok(all)
}

/// The plain rule of each problem, for as many nodes as there may be. The only error is want of memory.
pub fn plain_policies(alloc: Global) -> Result<Policies, AllocError>
    ensures count { IfOk result (λ policies. length policies.pairs.items ≡ MAX_NODES) }
    ensures plain { IfOk result (λ policies. policies.pairs.items ≡ replicate MAX_NODES (record { first = None; second = None })) }
{
    let mut pairs = Vec::new(alloc);
    for _ in 0..MAX_NODES {
        pairs.push(Pair {
            first: None,
            second: None,
        })?;
    }
    Ok(Policies { pairs })
}

/// Runs a new service with the caller inside, as `with_sessions` does: its ballots, its problem and its clients are
/// those of the settings, and nobody has kept anything yet.
///
/// The caller owes settings in range; sixteen pairs of policies for the world beside the log, and as many for the
/// nodes; and one record in which nothing was ever written for each node, of the settings' problem, and for each
/// client.
///
/// The only error is that memory was refused or a thread couldn't be started (914). Then the threads that were
/// started have ended, and what was handed in is dropped.
/// The caller boxes its records in the function that calls this.
pub fn run_sessions<T: Threads + Wait + Copy + Send + Sync, S: OwnRecord + Send, J: Work + Sync>(
    rt: T,
    alloc: Global,
    settings: &Settings,
    weather: Weather,
    for_world: Policies,
    for_threads: Policies,
    node_records: Vec<Box<dyn StableRecord + Send>>,
    client_records: Vec<S>,
    work: &J,
) -> Result<ServiceEnd<S>, RunFault>
    requires some_client { 1 ≤ settings.now.clients }
    requires few_clients { settings.now.clients ≤ MAX_CLIENTS }
    requires world { length for_world.pairs.items ≡ MAX_NODES }
    requires threads { length for_threads.pairs.items ≡ MAX_NODES }
    requires nodes { map (λ r. (StableRecord-box r).finds r.value) node_records.items ≡ replicate (node_count settings.now.ballots) (empty_node settings.now.problem) }
    requires clients { map (λ r. S.StableRecord.finds r) client_records.items ≡ replicate settings.now.clients empty_client }
    ensures opening { IfOk result (λ end. end.book.opening ≡ all_down settings.now) }
    ensures history { IfOk result (λ end. IsHistory (all_down settings.now) end.book.history end.book.world) }
    ensures entered { IfOk result (λ end. end.entered ≡ enters end.book.history) }
    ensures faults { IfOk result (λ end. AreFaults (all_down settings.now) end.faults.items) }
    ensures records { IfOk result (λ end. AreRecords (all_down settings.now) end.book.world end.faults.items (map (λ r. (r.0, S.StableRecord.finds r.1)) end.records.items)) }
    ensures err { IfErr result (λ f. f ≡ RunFault.Memory) }
{
    let nodes = settings.ballots.nodes();
    let Ok(world) = world_down(alloc, settings, for_world) else {
        return Err(RunFault::Memory);
    };
    let pairs = chosen(for_threads, nodes);
    let ballots = settings.ballots;
    with_sessions(
        rt,
        alloc,
        ballots,
        node_records,
        client_records,
        world,
        pairs,
        weather,
        work,
    )
}

/// Adds a node's record.
fn add_record(
    records: &mut Vec<Box<dyn StableRecord + Send>>,
    kept: Box<dyn StableRecord + Send>,
) -> Result<(), AllocError>
    ensures { OnOk result (records.new.items ≡ records.old.items ++ kept ∷ []) }
{
    match records.push(kept) {
        Ok(()) => Ok(()),
        Err(_) => Err(AllocError),
    }
}

/// Runs a new service as `run_sessions` does, by the plain rules, with records that live as long as the program.
///
/// The caller owes settings in range. The only error is that memory was refused or a thread couldn't be started
/// (914).
/// The boxes of the nodes' records are made here: a library may not hand out a box that it made.
pub fn run_in_memory<T: Threads + Wait + Copy + Send + Sync, J: Work + Sync>(
    rt: T,
    alloc: Global,
    settings: &Settings,
    weather: Weather,
    work: &J,
) -> Result<ServiceEnd<MemoryRecord>, RunFault>
    requires some_client { 1 ≤ settings.now.clients }
    requires few_clients { settings.now.clients ≤ MAX_CLIENTS }
    ensures opening { IfOk result (λ end. end.book.opening ≡ all_down settings.now) }
    ensures history { IfOk result (λ end. IsHistory (all_down settings.now) end.book.history end.book.world) }
    ensures entered { IfOk result (λ end. end.entered ≡ enters end.book.history) }
    ensures faults { IfOk result (λ end. AreFaults (all_down settings.now) end.faults.items) }
    ensures records { IfOk result (λ end. AreRecords (all_down settings.now) end.book.world end.faults.items (map (λ r. (r.0, r.1 ∷ [])) end.records.items)) }
    ensures err { IfErr result (λ f. f ≡ RunFault.Memory) }
{
    let (Ok(for_world), Ok(for_threads)) = (plain_policies(alloc), plain_policies(alloc)) else {
        return Err(RunFault::Memory);
    };
    // Boxes are made here, since who hands one out hides what is in it from its callers.
    let mut nodes = Vec::new(alloc);
    for _ in 0..settings.ballots.nodes() {
        let Ok(record) = empty_node_record(alloc, settings.problem) else {
            return Err(RunFault::Memory);
        };
        let Ok(record) = Box::new(alloc, record) else {
            return Err(RunFault::Memory);
        };
        let Ok(()) = add_record(&mut nodes, record) else {
            return Err(RunFault::Memory);
        };
    }
    let Ok(clients) = empty_client_records(alloc, settings.clients) else {
        return Err(RunFault::Memory);
    };
    run_sessions(
        rt,
        alloc,
        settings,
        weather,
        for_world,
        for_threads,
        nodes,
        clients,
        work,
    )
}

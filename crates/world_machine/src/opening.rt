// Opening a world: with nothing kept, or from records.

ghost use Rattle.std.specs.Prelude.{◌≡◌, ◌∷◌, [], ◌+◌, ◌<◌, ◌≤◌, ◌++◌, length, map, replicate, IfOk, IfErr};
ghost use Rattle.std.specs.List.{AllByRecursion};
ghost use Rattle.std.specs.Vec.{vec_len, vec_capacity};
ghost use Rattle.lock_model.specs.Ballots.{node_count};
ghost use Rattle.lock_messages.specs.declared.ids.TheConstants.{MAX_NODES, MAX_CLIENTS, MAX_ATTEMPT};
ghost use Rattle.stable_record.specs.Records.{IsNodeRecord};
ghost use Rattle.world_model.specs.Forgetting.{forget, setting_of};
ghost use Rattle.world_model.specs.Openings.{down_node, down_client, empty_station, opening, resumed};
ghost use Rattle.world_model.specs.Worlds.{IsLawfulOpening};
ghost use Rattle.world_opening.specs.Openings.{IsRefusedOpening, station_in, stations_in};
ghost use Rattle.world_opening.specs.declared.faults.OpeningFault.TheVariants as fault;
ghost use Rattle.world_machine.specs.Machines.{node_part, client_part, AreNodes, AreClients};
ghost use Rattle.world_machine.specs.Opened.{IsResumed, CanOpen};

use crate::World;
use admission_policy::Pair;
use lock_messages::NodeId;
use lock_model::Problem;
use stable_record::{Entries, NodeRecord};
use std::alloc::{AllocError, Global};
use vote_weights::BallotList;
use world_actors::{WorldClient, WorldNode};
use world_model::laws::openings_are_lawful;
use world_opening::{Opening, OpeningFault, client_at, judge, node_at};

/// Clients that are down and have kept these attempts.
fn clients_of(
    alloc: Global,
    ballots: BallotList,
    attempts: &[u64],
) -> Result<Vec<WorldClient>, AllocError>
    requires few { length attempts.now ≤ MAX_CLIENTS }
    requires in_range { AllByRecursion (λ a. a ≤ MAX_ATTEMPT) attempts.now }
    ensures parts { IfOk result (λ v. map client_part v.items ≡ map down_client attempts.now) }
    ensures order { IfOk result (λ v. AreClients ballots v.items) }
{
    let mut clients = Vec::with_capacity(alloc, attempts.len())?;
    for place in 0..attempts.len() {
        let client = WorldClient::opened(client_at(place), attempts[place], ballots);
        clients.push(client)?;
    }
    Ok(clients)
}

/// One node more, down with this station kept. There is room for it.
fn put_node(
    alloc: Global,
    nodes: &mut Vec<WorldNode>,
    id: NodeId,
    station: NodeRecord,
    policies: Pair,
)
    requires room { vec_len nodes.old < vec_capacity nodes.old }
    requires good { IsNodeRecord station }
    ensures node { nodes.new.items ≡ nodes.old.items ++ record { number = id; part = down_node (station_in station) } ∷ [] }
    ensures capacity { vec_capacity nodes.old ≤ vec_capacity nodes.new }
{
    let node = WorldNode::opened(alloc, id, station, policies);
    let Ok(()) = nodes.push(node) else {
        unreachable!();
    };
}

/// Nodes that are down and have kept these records; the pairs back where memory was refused.
fn nodes_of(
    alloc: Global,
    records: Vec<NodeRecord>,
    pairs: Vec<Pair>,
) -> Result<Vec<WorldNode>, Vec<Pair>>
    requires good { AllByRecursion IsNodeRecord records.items }
    requires few { length records.items ≤ MAX_NODES }
    requires pairs { length pairs.items ≡ length records.items }
    ensures parts { IfOk result (λ nodes. map node_part nodes.items ≡ map down_node (stations_in records.items)) }
    ensures order { IfOk result (λ nodes. AreNodes nodes.items) }
    ensures back { IfErr result (λ back. back.items ≡ pairs.items) }
{
    let count = records.len();
    let Ok(mut nodes) = Vec::with_capacity(alloc, count) else {
        return Err(pairs);
    };
    let mut records = records;
    let mut pairs = pairs;
    for place in 0..count {
        let station = records.remove(0);
        let pair = pairs.remove(0);
        put_node(alloc, &mut nodes, node_at(place), station, pair);
    }
    Ok(nodes)
}

/// So many records without entries, of this problem.
fn empty_records(
    alloc: Global,
    problem: Problem,
    count: usize,
) -> Result<Vec<NodeRecord>, AllocError>
    ensures stations { IfOk result (λ v. stations_in v.items ≡ map empty_station (replicate count problem)) }
    ensures good { IfOk result (λ v. AllByRecursion IsNodeRecord v.items) }
{
    let mut records = Vec::with_capacity(alloc, count)?;
    for place in 0..count {
        records.push(NodeRecord {
            problem,
            entries: Entries::new(alloc),
        })?;
    }
    Ok(records)
}

/// What is kept by so many nodes, of this problem, and by so many clients, before anything was.
fn nothing_kept(
    alloc: Global,
    problem: Problem,
    nodes: u8,
    clients: u16,
) -> Result<Opening, AllocError>
    ensures stations { IfOk result (λ o. stations_in o.records.items ≡ map empty_station (replicate nodes problem)) }
    ensures good { IfOk result (λ o. AllByRecursion IsNodeRecord o.records.items) }
    ensures attempts { IfOk result (λ o. o.attempts.items ≡ replicate clients 0) }
{
    let records = empty_records(alloc, problem, nodes as usize)?;
    let attempts = vec![in alloc; 0; clients as usize]?;
    Ok(Opening { records, attempts })
}

/// The world in which each actor is down with what is kept; the pairs back where memory was refused.
fn opened(
    alloc: Global,
    ballots: BallotList,
    pairs: Vec<Pair>,
    kept: Opening,
) -> Result<World, Vec<Pair>>
    requires kept { CanOpen ballots kept.records.items kept.attempts.items }
    requires pairs { length pairs.items ≡ length kept.records.items }
    ensures world { IfOk result (λ w. w ≡ resumed ballots (stations_in kept.records.items) kept.attempts.items) }
    ensures lawful { IfOk result (λ w. IsLawfulOpening (setting_of w) (forget w)) }
    ensures back { IfErr result (λ back. back.items ≡ pairs.items) }
{
    openings_are_lawful();
    let Opening { records, attempts } = kept;
    let Ok(clients) = clients_of(alloc, ballots, &attempts) else {
        return Err(pairs);
    };
    match nodes_of(alloc, records, pairs) {
        Ok(nodes) => Ok(World {
            alloc,
            ballots,
            nodes,
            clients,
            sent: Vec::new(alloc),
        }),
        Err(pairs) => Err(pairs),
    }
}

impl World {
    /// The world in which nothing is kept: all actors are down, the nodes' records are empty and of this
    /// problem, no client has made an attempt, and nothing is sent. Node 1 has the first pair of policies,
    /// node 2 the second and so on.
    ///
    /// The caller owes 1 to `MAX_CLIENTS` clients, and one pair for each node of the ballots. The only
    /// error is want of memory (613), and then the pairs come back as they were.
    pub fn start(
        alloc: Global,
        ballots: BallotList,
        clients: u16,
        problem: Problem,
        pairs: Vec<Pair>,
    ) -> Result<World, (OpeningFault, Vec<Pair>)>
        requires some_client { 1 ≤ clients }
        requires few_clients { clients ≤ MAX_CLIENTS }
        requires pairs { length pairs.items ≡ node_count ballots }
        ensures world { IfOk result (λ w. w ≡ opening ballots (replicate (node_count ballots) problem) clients) }
        ensures lawful { IfOk result (λ w. IsLawfulOpening (setting_of w) (forget w)) }
        ensures memory { IfErr result (λ refused. refused.0 ≡ fault.Memory) }
        ensures back { IfErr result (λ refused. refused.1.items ≡ pairs.items) }
    {
        openings_are_lawful();
        let nodes = ballots.nodes();
        let Ok(kept) = nothing_kept(alloc, problem, nodes, clients) else {
            return Err((OpeningFault::Memory, pairs));
        };
        match opened(alloc, ballots, pairs, kept) {
            Ok(world) => Ok(world),
            Err(pairs) => Err((OpeningFault::Memory, pairs)),
        }
    }

    /// The world in which each actor has kept what its record says: all are down, nothing is tried and
    /// nothing sent. Node 1 has the first pair of policies and the first of `node_records`, whose problem
    /// is its own, client 1 the first of `client_records`, and so on. Each record is read once.
    ///
    /// The caller owes 1 to `MAX_CLIENTS` clients with one record each, and one pair and one record for
    /// each node of the ballots.
    ///
    /// Errors: a record can't be read (622), with the first such actor, nodes first; then an entry's floor
    /// or attempt is above the attempt of its client (621), where a client that isn't there counts as 0;
    /// and want of memory (613), which may come before both. With each the pairs come back as they were.
    pub fn resume(
        alloc: Global,
        ballots: BallotList,
        clients: u16,
        pairs: Vec<Pair>,
        node_records: &[Vec<u8>],
        client_records: &[Vec<u8>],
    ) -> Result<World, (OpeningFault, Vec<Pair>)>
        requires some_client { 1 ≤ clients }
        requires few_clients { clients ≤ MAX_CLIENTS }
        requires pairs { length pairs.items ≡ node_count ballots }
        requires nodes { length node_records.now ≡ node_count ballots }
        requires clients { length client_records.now ≡ clients }
        ensures world { IfOk result (IsResumed ballots (map (λ v. v.items) node_records.now) (map (λ v. v.items) client_records.now)) }
        ensures lawful { IfOk result (λ w. IsLawfulOpening (setting_of w) (forget w)) }
        ensures refused { IfErr result (λ refused. IsRefusedOpening (map (λ v. v.items) node_records.now) (map (λ v. v.items) client_records.now) refused.0) }
        ensures back { IfErr result (λ refused. refused.1.items ≡ pairs.items) }
    {
        openings_are_lawful();
        let (_nodes, _clients) = (ballots.nodes(), clients);
        let kept = match judge(alloc, node_records, client_records) {
            Ok(kept) => kept,
            Err(fault) => return Err((fault, pairs)),
        };
        match opened(alloc, ballots, pairs, kept) {
            Ok(world) => Ok(world),
            Err(pairs) => Err((OpeningFault::Memory, pairs)),
        }
    }
}

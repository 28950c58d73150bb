// A new service without journals, with records that live as long as the service.

ghost use Rattle.std.specs.Prelude.{◌≡◌, ◌≤◌, ◌∷◌, [], map, length, All, IfSome, IfOk, IfErr};
ghost use Rattle.lock_messages.specs.declared.ids.TheConstants.{MAX_NODES, MAX_CLIENTS};
ghost use Rattle.lock_messages.specs.declared.ids.Actor.TheVariants as actor;
ghost use Rattle.lock_model.specs.Ballots.{node_count};
ghost use Rattle.node_loop.specs.Standing.{IsNodeFault};
ghost use Rattle.world_model.specs.Parts.{NodePart};
ghost use Rattle.own_threads.specs.Beginnings.{unwritten};
ghost use Rattle.own_threads.specs.Ends.{AreClientEnds};
ghost use Rattle.own_threads.specs.Memories.{new_client_log, new_clients, opened_log};
ghost use Rattle.own_threads.specs.Tasks.{IsNodeTask, IsClientTask, AreNodesReady, AreClientsReady, with_found};

use crate::ends::{ClientEnd, NodeEnd, OwnServiceEnd};
use crate::lives::plain_rules;
use crate::quiet::QuietRecorder;
use crate::recorders::ActorRecorder;
use crate::services::with_own_sessions;
use crate::starts::{ClientStart, NodeStart};
use crate::works::OwnWork;
use event_recorders::RunFault;
use lock_messages::{ClientId, NodeId};
use lock_model::Problem;
use lossy_link::Weather;
use own_recorders::{OwnActor, OwnClient, OwnNode};
use stable_record::{Entries, MemoryRecord, NodeRecord, StableRecord, client_bytes, node_bytes};
use std::alloc::{AllocError, Global};
use std::sync::Wait;
use std::thread::Threads;
use vote_weights::BallotList;
use world_actors::WorldNode;

/// A node that solves this problem and has taken nothing yet, and its record.
#[tactic(auto, using(crate::proofs::NewFacts::new_node_ready))]
fn new_node(
    alloc: Global,
    ballots: BallotList,
    problem: Problem,
    node: NodeId,
) -> Result<(OwnNode, MemoryRecord), AllocError>
    ensures { IfOk result (λ r. IsNodeTask node (opened_log (actor.Node r.0.node.number) r.0.list (NodePart r.0.node.part)) (r.1 ∷ [])) }
{
    let kept = NodeRecord {
        problem,
        entries: Entries::new(alloc),
    };
    let Ok(bytes) = node_bytes(alloc, &kept) else {
        return Err(AllocError);
    };
    let Ok(record) = MemoryRecord::holding(alloc, bytes.as_slice()) else {
        return Err(AllocError);
    };
    let actor = OwnNode {
        node: WorldNode::opened(alloc, node, kept, plain_rules()),
        list: ballots,
    };
    Ok((actor, record))
}

/// What a client is handed in with that has made no attempt yet.
#[tactic(auto, using(crate::proofs::NewFacts::new_client_ready))]
fn new_client(
    alloc: Global,
    ballots: BallotList,
    client: ClientId,
) -> Result<ClientStart<QuietRecorder<OwnClient>, MemoryRecord>, AllocError>
    ensures log { IfOk result (λ s. s.recorder ≡ new_client_log ballots client) }
    ensures ready { IfOk result (λ s. IsClientTask client ballots s.recorder (s.stable ∷ [])) }
{
    let Ok(stable) = MemoryRecord::holding(alloc, &client_bytes(0)) else {
        return Err(AllocError);
    };
    let recorder = QuietRecorder::over(OwnClient::opened(client, 0, ballots));
    Ok(ClientStart { recorder, stable })
}

/// What so many clients are handed in with that have made no attempt yet.
fn all_new_clients(
    alloc: Global,
    ballots: BallotList,
    clients: u16,
) -> Result<Vec<ClientStart<QuietRecorder<OwnClient>, MemoryRecord>>, AllocError>
    requires { clients ≤ MAX_CLIENTS }
    ensures logs { IfOk result (λ all. map (λ s. unwritten s.recorder) all.items ≡ new_clients ballots clients) }
    ensures ready { IfOk result (λ all. AreClientsReady ballots 1 (map (λ s. (s.recorder, s.stable ∷ [])) all.items)) }
{
    let mut all = Vec::new(alloc);
    for place in 0..clients {
        let Some(client) = ClientId::of(u32::from(place) + 1) else {
            unreachable!()
        };
        all.push(new_client(alloc, ballots, client)?)?;
    }
    Ok(all)
}

/// A node that is handed in without a recorder, and its record.
#[derive(Drop)]
struct NodeActor<K> {
    actor: K,
    stable: Box<dyn StableRecord + Send>,
}

/// What a new service leaves: the fault by which each node ended, if it did, and how each client ended, both in order.
#[derive(Drop)]
pub struct MemoryServiceEnd {
    pub nodes: Vec<Option<RunFault>>,
    pub clients: Vec<ClientEnd<QuietRecorder<OwnClient>, MemoryRecord>>,
}

/// Gives each node a recorder that writes no journal.
fn recorded<K: OwnActor>(
    alloc: Global,
    nodes: Vec<NodeActor<K>>,
) -> Result<Vec<NodeStart<QuietRecorder<K>>>, RunFault>
    requires { AreNodesReady 1 (map (λ n. with_found (opened_log (K.actor n.actor) (K.ballots n.actor) (K.part n.actor)) (finds n.stable)) nodes.items) }
    ensures same { IfOk result (λ starts. map (λ s. with_found s.recorder (finds s.stable)) starts.items ≡ map (λ n. with_found (opened_log (K.actor n.actor) (K.ballots n.actor) (K.part n.actor)) (finds n.stable)) nodes.items) }
    ensures err { IfErr result (λ f. f ≡ RunFault.Memory) }
{
    let mut starts = Vec::new(alloc);
    for node in nodes {
        let NodeActor { actor, stable } = node;
        let recorder = QuietRecorder::over(actor);
        let Ok(()) = starts.push(NodeStart { recorder, stable }) else {
            return Err(RunFault::Memory);
        };
    }
    Ok(starts)
}

/// The faults of nodes, in order.
fn faults_of<N: ActorRecorder>(
    alloc: Global,
    ends: Vec<NodeEnd<N>>,
) -> Result<Vec<Option<RunFault>>, RunFault>
    ensures faults { IfOk result (λ faults. faults.items ≡ map (λ e. e.fault) ends.items) }
    ensures err { IfErr result (λ f. f ≡ RunFault.Memory) }
{
    let mut faults = Vec::new(alloc);
    for end in ends {
        let Ok(()) = faults.push(end.fault) else {
            return Err(RunFault::Memory);
        };
    }
    Ok(faults)
}

/// Runs a service of these nodes and so many new clients, without journals.
fn serve_quietly<K: OwnActor + Send, R: Threads + Wait + Copy + Send, J: OwnWork + Sync>(
    rt: R,
    alloc: Global,
    ballots: BallotList,
    nodes: Vec<NodeActor<K>>,
    clients: u16,
    weather: &Weather,
    work: &J,
) -> Result<MemoryServiceEnd, RunFault>
    requires few_nodes { length nodes.items ≤ MAX_NODES }
    requires few_clients { clients ≤ MAX_CLIENTS }
    requires ready { AreNodesReady 1 (map (λ n. with_found (opened_log (K.actor n.actor) (K.ballots n.actor) (K.part n.actor)) ((StableRecord-box n.stable).finds n.stable.value)) nodes.items) }
    ensures count { IfOk result (λ end. length end.nodes.items ≡ length nodes.items) }
    ensures faults { IfOk result (λ end. All (λ f. IfSome f IsNodeFault) end.nodes.items) }
    ensures clients { IfOk result (λ end. AreClientEnds (new_clients ballots clients) (map (λ e. (e.recorder, unwritten e.recorder, e.fault, e.stable ∷ [])) end.clients.items)) }
    ensures err { IfErr result (λ f. f ≡ RunFault.Memory) }
{
    let nodes = recorded(alloc, nodes)?;
    let Ok(starts) = all_new_clients(alloc, ballots, clients) else {
        return Err(RunFault::Memory);
    };
    let end = with_own_sessions(rt, alloc, ballots, nodes, starts, weather, work)?;
    let OwnServiceEnd { nodes, clients } = end;
    let nodes = faults_of(alloc, nodes)?;
    Ok(MemoryServiceEnd { nodes, clients })
}

/// Runs a new service as `with_own_sessions` does, without journals: as many nodes as the ballots have, which solve this
/// problem, and so many clients, with records that live as long as the service.
///
/// The caller owes at most `MAX_CLIENTS` clients. The only error is 914: out of memory, or a thread could not be started.
pub fn run_own_in_memory<R: Threads + Wait + Copy + Send, J: OwnWork + Sync>(
    rt: R,
    alloc: Global,
    ballots: BallotList,
    problem: Problem,
    clients: u16,
    weather: &Weather,
    work: &J,
) -> Result<MemoryServiceEnd, RunFault>
    requires { clients ≤ MAX_CLIENTS }
    ensures count { IfOk result (λ end. length end.nodes.items ≡ node_count ballots) }
    ensures nodes { IfOk result (λ end. All (λ f. IfSome f IsNodeFault) end.nodes.items) }
    // The logs of the clients are own runs of clients that had made no attempt.
    ensures clients { IfOk result (λ end. AreClientEnds (new_clients ballots clients) (map (λ e. (e.recorder, unwritten e.recorder, e.fault, e.stable ∷ [])) end.clients.items)) }
    ensures err { IfErr result (λ f. f ≡ RunFault.Memory) }
{
    // The boxes are made here, because a function that hands out a box hides what is in it.
    let mut nodes = Vec::new(alloc);
    for place in 0..ballots.nodes() {
        let Some(node) = NodeId::of(place + 1) else {
            unreachable!()
        };
        let Ok((actor, record)) = new_node(alloc, ballots, problem, node) else {
            return Err(RunFault::Memory);
        };
        let Ok(stable) = Box::new(alloc, record) else {
            return Err(RunFault::Memory);
        };
        let Ok(()) = nodes.push(NodeActor { actor, stable }) else {
            return Err(RunFault::Memory);
        };
    }
    serve_quietly(rt, alloc, ballots, nodes, clients, weather, work)
}

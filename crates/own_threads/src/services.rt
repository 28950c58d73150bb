// A service, from what is handed in to its end.

ghost use Rattle.std.specs.Prelude.{◌≡◌, ◌≤◌, ◌+◌, ◌++◌, length, map, IfOk, IfErr};
ghost use Rattle.std.specs.List.{range_with_len};
ghost use Rattle.lock_messages.specs.declared.ids.TheConstants.{MAX_NODES, MAX_CLIENTS};
ghost use Rattle.lossy_link.specs.ChannelLinks.{link_at};
ghost use Rattle.own_threads.specs.Ends.{AreNodeEnds, AreClientEnds};
ghost use Rattle.own_threads.specs.Tasks.{AreNodesReady, AreClientsReady};

use crate::ends::OwnServiceEnd;
use crate::recorders::ActorRecorder;
use crate::starts::{ClientStart, NodeStart};
use crate::tasks::{client_tasks, node_tasks};
use crate::threads::run_threads;
use crate::works::OwnWork;
use event_recorders::RunFault;
use lock_session::OwnRecord;
use lossy_link::{ChannelLink, Weather};
use std::alloc::Global;
use std::sync::Wait;
use std::thread::Threads;
use vote_weights::BallotList;

/// The links of so many nodes, and of so many clients, each with the weather at its own place, nodes first.
fn links_of<R: Wait + Copy>(
    rt: R,
    alloc: Global,
    nodes: usize,
    clients: usize,
    weather: &Weather,
) -> Result<(Vec<ChannelLink<R>>, Vec<ChannelLink<R>>), RunFault>
    requires few_nodes { nodes ≤ MAX_NODES }
    requires few_clients { clients ≤ MAX_CLIENTS }
    ensures nodes { IfOk result (λ links. length links.0.items ≡ nodes) }
    ensures clients { IfOk result (λ links. length links.1.items ≡ clients) }
    ensures links { IfOk result (λ links. links.0.items ++ links.1.items ≡ map (link_at nodes weather.now) (range_with_len 0 (nodes + clients))) }
    ensures err { IfErr result (λ f. f ≡ RunFault.Memory) }
{
    let Ok(mut links) = ChannelLink::all(rt, alloc, nodes as u8, clients as u16, weather) else {
        return Err(RunFault::Memory);
    };
    let Ok(others) = links.split_off(nodes) else {
        return Err(RunFault::Memory);
    };
    Ok((links, others))
}

/// Runs a service in threads, whose actors log for themselves: a thread for each node, and one for each client, in which
/// the caller's work is done with the client's session. The place of an actor in its list is its number, from 1 on.
///
/// A client rises before its work begins. If it does not rise, the work has no session for it. When the work with a
/// session returns, its client says what a guard that was dropped has left to say. Then the nodes learn that the client is
/// gone. The nodes end once all clients are gone, and all threads are joined. The nodes decide by the plain rules of the
/// problems in their records.
///
/// The threads share nothing but their inboxes, and no list grows with the number of events. So a service goes on for as
/// long as its work does, and a client has `MAX_ATTEMPT` attempts.
///
/// The caller owes for each actor a recorder that has logged nothing, and a record in which a restart finds just what the
/// actor has kept in the recorder's log. A recorder with a journal is `OwnRecorder::over`, and one without is
/// `QuietRecorder::over`.
///
/// The only error is 914: out of memory, or a thread could not be started. Then the threads that were started have ended,
/// and what was handed in is dropped.
///
/// A work that waits for a lock which no other thread releases waits for ever. That a service ends if its work does is
/// tested and not proved.
pub fn with_own_sessions<
    N: ActorRecorder + Send,
    C: ActorRecorder + Send,
    S: OwnRecord + Send,
    R: Threads + Wait + Copy + Send,
    J: OwnWork + Sync,
>(
    rt: R,
    alloc: Global,
    ballots: BallotList,
    nodes: Vec<NodeStart<N>>,
    clients: Vec<ClientStart<C, S>>,
    weather: &Weather,
    work: &J,
) -> Result<OwnServiceEnd<N, C, S>, RunFault>
    requires few_nodes { length nodes.items ≤ MAX_NODES }
    requires few_clients { length clients.items ≤ MAX_CLIENTS }
    requires nodes { AreNodesReady 1 (map (λ s. (N.Recorder.own_log s.recorder, (StableRecord-box s.stable).finds s.stable.value)) nodes.items) }
    requires clients { AreClientsReady ballots 1 (map (λ s. (C.Recorder.own_log s.recorder, S.StableRecord.finds s.stable)) clients.items) }
    // Each log is an own run from the beginning that was handed in at its place, and each fault is one of such an actor.
    ensures nodes { IfOk result (λ end. AreNodeEnds (map (λ s. N.beginning s.recorder) nodes.items) (map (λ e. (N.Recorder.own_log e.recorder, N.beginning e.recorder, e.fault)) end.nodes.items)) }
    ensures clients { IfOk result (λ end. AreClientEnds (map (λ s. C.beginning s.recorder) clients.items) (map (λ e. (C.Recorder.own_log e.recorder, C.beginning e.recorder, e.fault, S.StableRecord.finds e.stable)) end.clients.items)) }
    ensures err { IfErr result (λ f. f ≡ RunFault.Memory) }
{
    let (node_links, client_links) = links_of(rt, alloc, nodes.len(), clients.len(), weather)?;
    let nodes = node_tasks(alloc, nodes, node_links)?;
    let clients = client_tasks(alloc, ballots, clients, client_links)?;
    run_threads(rt, alloc, nodes, clients, work)
}

// What each thread is given: its actor's recorder, its record and its link.

ghost use Rattle.std.specs.Prelude.{◌≡◌, ◌≤◌, length, map, All, IfOk, IfErr};
ghost use Rattle.lock_messages.specs.declared.ids.TheConstants.{MAX_NODES, MAX_CLIENTS};
ghost use Rattle.own_threads.specs.Tasks.{IsNodeTask, IsClientTask, AreNodesReady, AreClientsReady};

use crate::recorders::ActorRecorder;
use crate::starts::{ClientStart, NodeStart};
use event_recorders::RunFault;
use lock_messages::{ClientId, NodeId};
use lock_session::OwnRecord;
use lossy_link::ChannelLink;
use stable_record::StableRecord;
use std::alloc::Global;
use std::sync::Wait;
use vote_weights::BallotList;

/// What a node's thread is given.
#[derive(Drop)]
pub(crate) struct NodeTask<N, R: Wait + Copy> {
    pub(crate) node: NodeId,
    pub(crate) recorder: N,
    pub(crate) stable: Box<dyn StableRecord + Send>,
    pub(crate) link: ChannelLink<R>,
}

/// What a client's thread is given.
#[derive(Drop)]
pub(crate) struct ClientTask<C, S, R: Wait + Copy> {
    pub(crate) client: ClientId,
    pub(crate) ballots: BallotList,
    pub(crate) recorder: C,
    pub(crate) stable: S,
    pub(crate) link: ChannelLink<R>,
}

/// What the threads of all nodes are given, in order, each with the link of its place.
pub(crate) fn node_tasks<N: ActorRecorder, R: Wait + Copy>(
    alloc: Global,
    starts: Vec<NodeStart<N>>,
    links: Vec<ChannelLink<R>>,
) -> Result<Vec<NodeTask<N, R>>, RunFault>
    requires few { length starts.items ≤ MAX_NODES }
    requires links { length links.items ≡ length starts.items }
    requires ready { AreNodesReady 1 (map (λ s. (N.Recorder.own_log s.recorder, finds s.stable)) starts.items) }
    ensures tasks { IfOk result (λ tasks. All (λ t. IsNodeTask t.node (N.Recorder.own_log t.recorder) (finds t.stable)) tasks.items) }
    ensures begun { IfOk result (λ tasks. map (λ t. N.beginning t.recorder) tasks.items ≡ map (λ s. N.beginning s.recorder) starts.items) }
    ensures links { IfOk result (λ tasks. map (λ t. t.link) tasks.items ≡ links.items) }
    ensures err { IfErr result (λ f. f ≡ RunFault.Memory) }
{
    let count = starts.len();
    let (mut starts, mut links) = (starts, links);
    let mut tasks = Vec::new(alloc);
    for place in 0..count {
        let Some(node) = NodeId::of(place as u8 + 1) else {
            unreachable!()
        };
        let NodeStart { recorder, stable } = starts.remove(0);
        let link = links.remove(0);
        let Ok(()) = tasks.push(NodeTask {
            node,
            recorder,
            stable,
            link,
        }) else {
            return Err(RunFault::Memory);
        };
    }
    Ok(tasks)
}

/// What the threads of all clients are given, in order, each with the link of its place.
pub(crate) fn client_tasks<C: ActorRecorder, S: OwnRecord, R: Wait + Copy>(
    alloc: Global,
    ballots: BallotList,
    starts: Vec<ClientStart<C, S>>,
    links: Vec<ChannelLink<R>>,
) -> Result<Vec<ClientTask<C, S, R>>, RunFault>
    requires few { length starts.items ≤ MAX_CLIENTS }
    requires links { length links.items ≡ length starts.items }
    requires ready { AreClientsReady ballots 1 (map (λ s. (C.Recorder.own_log s.recorder, S.StableRecord.finds s.stable)) starts.items) }
    ensures tasks { IfOk result (λ tasks. All (λ t. IsClientTask t.client t.ballots (C.Recorder.own_log t.recorder) (S.StableRecord.finds t.stable)) tasks.items) }
    ensures begun { IfOk result (λ tasks. map (λ t. C.beginning t.recorder) tasks.items ≡ map (λ s. C.beginning s.recorder) starts.items) }
    ensures links { IfOk result (λ tasks. map (λ t. t.link) tasks.items ≡ links.items) }
    ensures err { IfErr result (λ f. f ≡ RunFault.Memory) }
{
    let count = starts.len();
    let (mut starts, mut links) = (starts, links);
    let mut tasks = Vec::new(alloc);
    for place in 0..count {
        let Some(client) = ClientId::of(place as u32 + 1) else {
            unreachable!()
        };
        let ClientStart { recorder, stable } = starts.remove(0);
        let link = links.remove(0);
        let Ok(()) = tasks.push(ClientTask {
            client,
            ballots,
            recorder,
            stable,
            link,
        }) else {
            return Err(RunFault::Memory);
        };
    }
    Ok(tasks)
}

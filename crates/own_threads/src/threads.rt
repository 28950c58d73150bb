// A thread for each task.

ghost use denote.Param.Send.{IsSend, IsSync};
ghost use Rattle.std.specs.Prelude.{◌≡◌, map, All, IfOk, IfErr};
ghost use Rattle.own_threads.specs.Ends.{IsNodeEnd, IsClientEnd, AreNodeEnds, AreClientEnds};
ghost use Rattle.own_threads.specs.Tasks.{IsNodeTask, IsClientTask};

use crate::ends::{ClientEnd, NodeEnd, OwnServiceEnd};
use crate::lives::{do_client, do_node};
use crate::recorders::ActorRecorder;
use crate::tasks::{ClientTask, NodeTask};
use crate::works::OwnWork;
use event_recorders::RunFault;
use lock_session::OwnRecord;
use std::alloc::Global;
use std::snapshot::Snapshot;
use std::sync::Wait;
use std::thread;
use std::thread::{Promise, PromisedHandle, Scope, Threads};

/// What is promised of a node's thread: that it gives an end of the node that began with this recorder.
#[derive(Drop)]
pub(crate) struct OfNode<N> {
    recorder: Snapshot<N>,
}

impl<N: ActorRecorder> Promise<NodeEnd<N>> for OfNode<N> {
    ghost kept_by = { λ p e. (N.beginning e.recorder ≡ N.beginning p.recorder.value) × IsNodeEnd (N.Recorder.own_log e.recorder) (N.beginning e.recorder) e.fault };
}

/// What is promised of a client's thread: that it gives an end of the client that began with this recorder.
#[derive(Drop)]
pub(crate) struct OfClient<C> {
    recorder: Snapshot<C>,
}

impl<C: ActorRecorder, S: OwnRecord> Promise<ClientEnd<C, S>> for OfClient<C> {
    ghost kept_by = { λ p e. (C.beginning e.recorder ≡ C.beginning p.recorder.value) × IsClientEnd (C.Recorder.own_log e.recorder) (C.beginning e.recorder) e.fault (S.StableRecord.finds e.stable) };
}

/// Starts a thread for each node's task.
fn start_nodes<'s, E, N: ActorRecorder + Send + 's, R: Threads + Wait + Copy + Send + 's>(
    scope: &'s Scope<'s, E>,
    rt: R,
    alloc: Global,
    nodes: Vec<NodeTask<N, R>>,
) -> Result<Vec<PromisedHandle<NodeEnd<N>, OfNode<N>>>, RunFault>
    requires { All (λ t. IsNodeTask t.node (N.Recorder.own_log t.recorder) (finds t.stable)) nodes.items }
    ensures began { IfOk result (λ threads. map (λ t. N.beginning t.promise.recorder.value) threads.items ≡ map (λ t. N.beginning t.recorder) nodes.items) }
    ensures err { IfErr result (λ f. f ≡ RunFault.Memory) }
{
    let mut threads = Vec::new(alloc);
    for task in nodes {
        let recorder = Snapshot::of(&task.recorder);
        let promise = OfNode { recorder };
        let Ok(handle) = scope.spawn_with(
            promise,
            move || -> NodeEnd<N>
                requires { IsNodeTask task.node (N.Recorder.own_log task.recorder) (finds task.stable) }
                ensures began { N.beginning result.recorder ≡ N.beginning task.recorder }
                ensures end { IsNodeEnd (N.Recorder.own_log result.recorder) (N.beginning result.recorder) result.fault }
            { do_node(rt, alloc, task) },
        ) else {
            return Err(RunFault::Memory);
        };
        let Ok(()) = threads.push(handle) else {
            return Err(RunFault::Memory);
        };
    }
    Ok(threads)
}

/// Starts a thread for each client's task, in which the work is done with its session.
fn start_clients<
    's,
    E,
    C: ActorRecorder + Send + 's,
    S: OwnRecord + Send + 's,
    R: Threads + Wait + Copy + Send + 's,
    J: OwnWork + Sync,
>(
    scope: &'s Scope<'s, E>,
    rt: R,
    alloc: Global,
    clients: Vec<ClientTask<C, S, R>>,
    work: &'s J,
) -> Result<Vec<PromisedHandle<ClientEnd<C, S>, OfClient<C>>>, RunFault>
    requires { All (λ t. IsClientTask t.client t.ballots (C.Recorder.own_log t.recorder) (S.StableRecord.finds t.stable)) clients.items }
    ensures began { IfOk result (λ threads. map (λ t. C.beginning t.promise.recorder.value) threads.items ≡ map (λ t. C.beginning t.recorder) clients.items) }
    ensures err { IfErr result (λ f. f ≡ RunFault.Memory) }
{
    let mut threads = Vec::new(alloc);
    for task in clients {
        let recorder = Snapshot::of(&task.recorder);
        let promise = OfClient { recorder };
        let Ok(handle) = scope.spawn_with(
            promise,
            move || -> ClientEnd<C, S>
                requires { IsClientTask task.client task.ballots (C.Recorder.own_log task.recorder) (S.StableRecord.finds task.stable) }
                ensures began { C.beginning result.recorder ≡ C.beginning task.recorder }
                ensures end { IsClientEnd (C.Recorder.own_log result.recorder) (C.beginning result.recorder) result.fault (S.StableRecord.finds result.stable) }
            { do_client(rt, alloc, task, work) },
        ) else {
            return Err(RunFault::Memory);
        };
        let Ok(()) = threads.push(handle) else {
            return Err(RunFault::Memory);
        };
    }
    Ok(threads)
}

/// Waits for the threads of nodes, in order.
fn join_nodes<N: ActorRecorder, R: Threads>(
    rt: &R,
    threads: Vec<PromisedHandle<NodeEnd<N>, OfNode<N>>>,
) -> Result<Vec<NodeEnd<N>>, RunFault>
    ensures ends { IfOk result (λ ends. AreNodeEnds (map (λ t. N.beginning t.promise.recorder.value) threads.items) (map (λ e. (N.Recorder.own_log e.recorder, N.beginning e.recorder, e.fault)) ends.items)) }
    ensures err { IfErr result (λ f. f ≡ RunFault.Memory) }
{
    let Ok(ends) = thread::join_promised(rt, threads) else {
        return Err(RunFault::Memory);
    };
    Ok(ends)
}

/// Waits for the threads of clients, in order.
fn join_clients<C: ActorRecorder, S: OwnRecord, R: Threads>(
    rt: &R,
    threads: Vec<PromisedHandle<ClientEnd<C, S>, OfClient<C>>>,
) -> Result<Vec<ClientEnd<C, S>>, RunFault>
    ensures ends { IfOk result (λ ends. AreClientEnds (map (λ t. C.beginning t.promise.recorder.value) threads.items) (map (λ e. (C.Recorder.own_log e.recorder, C.beginning e.recorder, e.fault, S.StableRecord.finds e.stable)) ends.items)) }
    ensures err { IfErr result (λ f. f ≡ RunFault.Memory) }
{
    let Ok(ends) = thread::join_promised(rt, threads) else {
        return Err(RunFault::Memory);
    };
    Ok(ends)
}

/// Runs each task in a thread of its own, and returns how each ended.
///
/// The only error is 914: out of memory, or a thread could not be started. Then the threads that were started have ended.
pub(crate) fn run_threads<
    N: ActorRecorder + Send,
    C: ActorRecorder + Send,
    S: OwnRecord + Send,
    R: Threads + Wait + Copy + Send,
    J: OwnWork + Sync,
>(
    rt: R,
    alloc: Global,
    nodes: Vec<NodeTask<N, R>>,
    clients: Vec<ClientTask<C, S, R>>,
    work: &J,
) -> Result<OwnServiceEnd<N, C, S>, RunFault>
    requires nodes { All (λ t. IsNodeTask t.node (N.Recorder.own_log t.recorder) ((StableRecord-box t.stable).finds t.stable.value)) nodes.items }
    requires clients { All (λ t. IsClientTask t.client t.ballots (C.Recorder.own_log t.recorder) (S.StableRecord.finds t.stable)) clients.items }
    ensures nodes { IfOk result (λ end. AreNodeEnds (map (λ t. N.beginning t.recorder) nodes.items) (map (λ e. (N.Recorder.own_log e.recorder, N.beginning e.recorder, e.fault)) end.nodes.items)) }
    ensures clients { IfOk result (λ end. AreClientEnds (map (λ t. C.beginning t.recorder) clients.items) (map (λ e. (C.Recorder.own_log e.recorder, C.beginning e.recorder, e.fault, S.StableRecord.finds e.stable)) end.clients.items)) }
    ensures err { IfErr result (λ f. f ≡ RunFault.Memory) }
{
    thread::scope(
        thread::scope_env(),
        &rt,
        move |scope| -> Result<OwnServiceEnd<N, C, S>, RunFault>
            requires cross { IsSend N.row × IsSend C.row × IsSend S.row × IsSend R.row × IsSync J.row }
            requires nodes { All (λ t. IsNodeTask t.node (N.Recorder.own_log t.recorder) ((StableRecord-box t.stable).finds t.stable.value)) nodes.items }
            requires clients { All (λ t. IsClientTask t.client t.ballots (C.Recorder.own_log t.recorder) (S.StableRecord.finds t.stable)) clients.items }
            ensures nodes { IfOk result (λ end. AreNodeEnds (map (λ t. N.beginning t.recorder) nodes.items) (map (λ e. (N.Recorder.own_log e.recorder, N.beginning e.recorder, e.fault)) end.nodes.items)) }
            ensures clients { IfOk result (λ end. AreClientEnds (map (λ t. C.beginning t.recorder) clients.items) (map (λ e. (C.Recorder.own_log e.recorder, C.beginning e.recorder, e.fault, S.StableRecord.finds e.stable)) end.clients.items)) }
            ensures err { IfErr result (λ f. f ≡ RunFault.Memory) }
        {
            let node_threads = start_nodes(scope, rt, alloc, nodes)?;
            let client_threads = start_clients(scope, rt, alloc, clients, work)?;
            let clients = join_clients(&rt, client_threads)?;
            let nodes = join_nodes(&rt, node_threads)?;
            Ok(OwnServiceEnd { nodes, clients })
        },
    )
}

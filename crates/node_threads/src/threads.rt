// A thread for each task.

ghost use denote.Param.Send.{IsSend, IsSync};
ghost use Rattle.std.specs.Prelude.{◌≡◌, map, All, IfOk, IfErr};
ghost use Rattle.node_threads.specs.Ends.{IsNodeEnd, IsClientEnd, AreNodeEnds, AreClientEnds, client_in, with_wishes};
ghost use Rattle.node_threads.specs.Tasks.{IsNodeTask, IsClientTask};

use crate::ends::{ClientEnd, Ends, NodeEnd};
use crate::tasks::{ClientTask, NodeTask, do_client, do_node};
use book_recorders::{BookName, Logs, Named};
use event_lines::Wish;
use event_recorders::{Gate, RunFault};
use history_book::Berth;
use lock_messages::{ClientId, NodeId};
use std::alloc::Global;
use std::snapshot::Snapshot;
use std::sync::{Mutex, Wait};
use std::thread;
use std::thread::{Promise, PromisedHandle, Scope, Threads};

/// What is promised of a node's thread: that it gives an end of this node.
#[derive(Drop)]
pub(crate) struct OfNode {
    node: NodeId,
}

impl Promise<NodeEnd> for OfNode {
    ghost kept_by = { λ p e. (e.node ≡ p.node) × IsNodeEnd e };
}

/// What is promised of a client's thread: that it gives an end of this client, with these wishes and a berth
/// of the same book.
#[derive(Drop)]
struct OfClient {
    client: ClientId,
    wishes: Snapshot<Vec<Wish>>,
    berth: Snapshot<Berth>,
}

impl Promise<ClientEnd> for OfClient {
    ghost kept_by = { λ p e. (client_in e ≡ with_wishes p.client p.wishes.value.items p.berth.value.table) × IsClientEnd e };
}

/// Starts a thread for each node's task.
pub(crate) fn start_nodes<
    's,
    E,
    B: BookName + Send,
    K: Logs + Send,
    R: Threads + Wait + Copy + Send + 's,
    G: Gate + Sync,
>(
    scope: &'s Scope<'s, E>,
    rt: R,
    alloc: Global,
    nodes: Vec<NodeTask<R>>,
    book: &'s Mutex<Named<B, K>>,
    gate: &'s G,
) -> Result<Vec<PromisedHandle<NodeEnd, OfNode>>, RunFault>
    requires { All (λ task. IsNodeTask B.table task.node task.berth (finds task.stable)) nodes.items }
    ensures named { IfOk result (λ threads. map (λ t. t.promise.node) threads.items ≡ map (λ t. t.node) nodes.items) }
    ensures err { IfErr result (λ f. f ≡ RunFault.Memory) }
{
    let mut threads = Vec::new(alloc);
    for task in nodes {
        let promise = OfNode { node: task.node };
        let Ok(handle) = scope.spawn_with(
            promise,
            move || -> NodeEnd
                requires { IsNodeTask B.table task.node task.berth (finds task.stable) }
                ensures node { result.node ≡ task.node }
                ensures end { IsNodeEnd result }
            { do_node(rt, alloc, task, book, gate) },
        ) else {
            return Err(RunFault::Memory);
        };
        let Ok(()) = threads.push(handle) else {
            return Err(RunFault::Memory);
        };
    }
    Ok(threads)
}

/// Starts a thread for each client's task.
fn start_clients<
    's,
    E,
    B: BookName + Send,
    K: Logs + Send,
    R: Threads + Wait + Copy + Send + 's,
    G: Gate + Sync,
>(
    scope: &'s Scope<'s, E>,
    rt: R,
    alloc: Global,
    clients: Vec<ClientTask<R>>,
    book: &'s Mutex<Named<B, K>>,
    gate: &'s G,
) -> Result<Vec<PromisedHandle<ClientEnd, OfClient>>, RunFault>
    requires { All (λ task. IsClientTask B.table task.client task.ballots task.wishes.items task.berth (finds task.stable)) clients.items }
    ensures named { IfOk result (λ threads. map (λ t. with_wishes t.promise.client t.promise.wishes.value.items t.promise.berth.value.table) threads.items ≡ map (λ t. with_wishes t.client t.wishes.items t.berth.table) clients.items) }
    ensures err { IfErr result (λ f. f ≡ RunFault.Memory) }
{
    let mut threads = Vec::new(alloc);
    for task in clients {
        let wishes = Snapshot::of(&task.wishes);
        let berth = Snapshot::of(&task.berth);
        let promise = OfClient {
            client: task.client,
            wishes,
            berth,
        };
        let Ok(handle) = scope.spawn_with(
            promise,
            move || -> ClientEnd
                requires { IsClientTask B.table task.client task.ballots task.wishes.items task.berth (finds task.stable) }
                ensures client { result.client ≡ task.client }
                ensures wishes { result.wishes.items ≡ task.wishes.items }
                ensures table { result.berth.table ≡ task.berth.table }
                ensures end { IsClientEnd result }
            { do_client(rt, alloc, task, book, gate) },
        ) else {
            return Err(RunFault::Memory);
        };
        let Ok(()) = threads.push(handle) else {
            return Err(RunFault::Memory);
        };
    }
    Ok(threads)
}

/// Waits for the threads of nodes, in order.
pub(crate) fn join_nodes<R: Threads>(
    rt: &R,
    threads: Vec<PromisedHandle<NodeEnd, OfNode>>,
) -> Result<Vec<NodeEnd>, RunFault>
    ensures ends { IfOk result (λ ends. AreNodeEnds (map (λ t. t.promise.node) threads.items) ends.items) }
    ensures err { IfErr result (λ f. f ≡ RunFault.Memory) }
{
    let Ok(ends) = thread::join_promised(rt, threads) else {
        return Err(RunFault::Memory);
    };
    Ok(ends)
}

/// Waits for the threads of clients, in order.
fn join_clients<R: Threads>(
    rt: &R,
    threads: Vec<PromisedHandle<ClientEnd, OfClient>>,
) -> Result<Vec<ClientEnd>, RunFault>
    ensures ends { IfOk result (λ ends. AreClientEnds (map (λ t. with_wishes t.promise.client t.promise.wishes.value.items t.promise.berth.value.table) threads.items) ends.items) }
    ensures err { IfErr result (λ f. f ≡ RunFault.Memory) }
{
    let Ok(ends) = thread::join_promised(rt, threads) else {
        return Err(RunFault::Memory);
    };
    Ok(ends)
}

/// Runs each task in a thread of its own, and answers how each ended. 914: memory was refused, or a thread
/// couldn't be started; then those that were started have ended.
pub(crate) fn run_threads<
    B: BookName + Send,
    K: Logs + Send,
    R: Threads + Wait + Copy + Send,
    G: Gate + Sync,
>(
    rt: R,
    alloc: Global,
    nodes: Vec<NodeTask<R>>,
    clients: Vec<ClientTask<R>>,
    book: &Mutex<Named<B, K>>,
    gate: &G,
) -> Result<Ends, RunFault>
    requires nodes { All (λ task. IsNodeTask B.table task.node task.berth (finds task.stable)) nodes.items }
    requires clients { All (λ task. IsClientTask B.table task.client task.ballots task.wishes.items task.berth (finds task.stable)) clients.items }
    ensures nodes { IfOk result (λ ends. AreNodeEnds (map (λ t. t.node) nodes.items) ends.nodes.items) }
    ensures clients { IfOk result (λ ends. AreClientEnds (map (λ t. with_wishes t.client t.wishes.items t.berth.table) clients.items) ends.clients.items) }
    ensures err { IfErr result (λ f. f ≡ RunFault.Memory) }
{
    thread::scope(
        thread::scope_env(),
        &rt,
        move |scope| -> Result<Ends, RunFault>
            requires cross { IsSend B.row × IsSend K.row × IsSend R.row × IsSync G.row }
            requires nodes { All (λ task. IsNodeTask B.table task.node task.berth (finds task.stable)) nodes.items }
            requires clients { All (λ task. IsClientTask B.table task.client task.ballots task.wishes.items task.berth (finds task.stable)) clients.items }
            ensures nodes { IfOk result (λ ends. AreNodeEnds (map (λ t. t.node) nodes.items) ends.nodes.items) }
            ensures clients { IfOk result (λ ends. AreClientEnds (map (λ t. with_wishes t.client t.wishes.items t.berth.table) clients.items) ends.clients.items) }
            ensures err { IfErr result (λ f. f ≡ RunFault.Memory) }
        {
            let node_threads = start_nodes(scope, rt, alloc, nodes, book, gate)?;
            let client_threads = start_clients(scope, rt, alloc, clients, book, gate)?;
            let nodes = join_nodes(&rt, node_threads)?;
            let clients = join_clients(&rt, client_threads)?;
            Ok(Ends { nodes, clients })
        },
    )
}

// A run, from the world to the end of its threads.

ghost use Rattle.std.specs.Prelude.{◌≡◌, map, All, IfOk, IfErr};
ghost use Rattle.node_threads.specs.Ends.{AreNodeEnds, AreClientEnds, with_wishes};
ghost use Rattle.node_threads.specs.Tasks.{IsNodeTask, IsClientTask};

use crate::ends::Ends;
use crate::opened::Opened;
use crate::tasks::{ClientTask, NodeTask};
use crate::threads::run_threads;
use berth_seats::OpenedWith;
use book_recorders::{BookName, Logs, Named};
use event_recorders::{Gate, RunFault};
use std::alloc::Global;
use std::marker::Brand;
use std::sync::{Mutex, Wait};
use std::thread::Threads;

/// Puts the book of this name behind a lock while the tasks are done, and hands it back.
fn named<B: BookName + Send, K: Logs + Send, R: Threads + Wait + Copy + Send, G: Gate + Sync>(
    rt: R,
    alloc: Global,
    book: K,
    nodes: Vec<NodeTask<R>>,
    clients: Vec<ClientTask<R>>,
    gate: &G,
) -> (K, Result<Ends, RunFault>)
    requires table { (K.book book).table ≡ B.table }
    requires nodes { All (λ task. IsNodeTask B.table task.node task.berth (finds task.stable)) nodes.items }
    requires clients { All (λ task. IsClientTask B.table task.client task.ballots task.wishes.items task.berth (finds task.stable)) clients.items }
    ensures table { (K.book result.0).table ≡ (K.book book).table }
    ensures nodes { IfOk result.1 (λ ends. AreNodeEnds (map (λ t. t.node) nodes.items) ends.nodes.items) }
    ensures clients { IfOk result.1 (λ ends. AreClientEnds (map (λ t. with_wishes t.client t.wishes.items t.berth.table) clients.items) ends.clients.items) }
    ensures err { IfErr result.1 (λ f. f ≡ RunFault.Memory) }
{
    let lock = Mutex::new(Named::<B, K>::of(book));
    let ended = run_threads(rt, alloc, nodes, clients, &lock, gate);
    (lock.into_inner().into_book(), ended)
}

/// Does the tasks over the book, and hands it back; it is still the book of the same opening.
pub(crate) fn opened<
    O: OpenedWith + Send,
    K: Logs + Send,
    R: Threads + Wait + Copy + Send,
    G: Gate + Sync,
>(
    rt: R,
    alloc: Global,
    book: K,
    nodes: Vec<NodeTask<R>>,
    clients: Vec<ClientTask<R>>,
    gate: &G,
) -> (K, Result<Ends, RunFault>)
    requires opening { (K.book book).opening ≡ O.world }
    requires nodes { All (λ task. IsNodeTask (K.book book).table task.node task.berth (finds task.stable)) nodes.items }
    requires clients { All (λ task. IsClientTask (K.book book).table task.client task.ballots task.wishes.items task.berth (finds task.stable)) clients.items }
    ensures opening { (K.book result.0).opening ≡ O.world }
    ensures table { (K.book result.0).table ≡ (K.book book).table }
    ensures nodes { IfOk result.1 (λ ends. AreNodeEnds (map (λ t. t.node) nodes.items) ends.nodes.items) }
    ensures clients { IfOk result.1 (λ ends. AreClientEnds (map (λ t. with_wishes t.client t.wishes.items t.berth.table) clients.items) ends.clients.items) }
    ensures err { IfErr result.1 (λ f. f ≡ RunFault.Memory) }
{
    let book = Opened::<O, K>::of(book);
    let (book, ended) = named::<Brand, Opened<O, K>, R, G>(rt, alloc, book, nodes, clients, gate);
    (book.into_book(), ended)
}

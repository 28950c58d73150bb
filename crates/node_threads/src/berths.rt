// The tasks of all actors: each gets its berth, its record and its link.

ghost use Rattle.std.specs.Prelude.{◌≡◌, ◌≤◌, ◌+◌, length, map, All, IfOk, IfErr};
ghost use Rattle.std.specs.List.{range_with_len};
ghost use Rattle.client_loop.specs.Visits.{ArePlaced};
ghost use Rattle.lock_messages.specs.declared.ids.TheConstants.{MAX_NODES, MAX_CLIENTS};
ghost use Rattle.history_book.specs.Books.{IsGiven};
ghost use Rattle.node_threads.specs.Actors.{IsNodeReady, IsClientReady, AreNodesReady, AreClientsReady};
ghost use Rattle.node_threads.specs.Tasks.{IsNodeTask, IsClientTask, own_wishes};

use crate::tasks::{ClientTask, NodeTask};
use admission_policy::Pair;
use event_lines::{MAX_WISHES, Wish};
use event_recorders::RunFault;
use history_book::{Berth, Book};
use lock_messages::{Actor, ClientId, NodeId};
use lossy_link::ChannelLink;
use stable_record::StableRecord;
use std::alloc::Global;
use std::sync::Wait;
use vote_weights::BallotList;

/// The berth of an actor of the book's world that has none yet; of another one there is none.
pub(crate) fn berth_of(book: &mut Book, actor: Actor) -> Result<Berth, RunFault>
    requires { Unit {0} }
    ensures given { IfOk result (λ k. IsGiven actor book.old k book.new) }
    ensures err { IfErr result (λ f. f ≡ RunFault.Memory) }
{
    match book.berth(actor) {
        Ok(Some(berth)) => Ok(berth),
        Ok(None) | Err(_) => Err(RunFault::Memory),
    }
}

/// The task of a node.
#[tactic(auto, using(crate::proofs::Ready::node_ready))]
fn node_task<R: Wait + Copy>(
    book: &mut Book,
    node: NodeId,
    stable: Box<dyn StableRecord + Send>,
    policies: Pair,
    link: ChannelLink<R>,
) -> Result<NodeTask<R>, RunFault>
    requires { IsNodeReady book.old.opening node (finds stable) }
    ensures task { IfOk result (λ task. IsNodeTask book.old.table task.node task.berth (finds task.stable)) }
    ensures node { IfOk result (λ task. task.node ≡ node) }
    ensures link { IfOk result (λ task. task.link ≡ link) }
    ensures table { IfOk result (λ _. book.new.table ≡ book.old.table) }
    ensures opening { IfOk result (λ _. book.new.opening ≡ book.old.opening) }
    ensures err { IfErr result (λ f. f ≡ RunFault.Memory) }
{
    let berth = berth_of(book, Actor::Node(node))?;
    Ok(NodeTask {
        node,
        berth,
        stable,
        policies,
        link,
    })
}

/// The wishes of a client among these, all of them and in order.
fn wishes_of(alloc: Global, client: ClientId, wishes: &[Wish]) -> Result<Vec<Wish>, RunFault>
    ensures own { IfOk result (λ own. own.items ≡ own_wishes client wishes.now) }
    ensures err { IfErr result (λ f. f ≡ RunFault.Memory) }
{
    let mut own = Vec::new(alloc);
    for wish in wishes {
        if wish.client == client && own.push(*wish).is_err() {
            return Err(RunFault::Memory);
        }
    }
    Ok(own)
}

/// The task of a client, with all its own wishes among these.
fn client_task<R: Wait + Copy>(
    alloc: Global,
    book: &mut Book,
    client: ClientId,
    ballots: BallotList,
    wishes: &[Wish],
    stable: Box<dyn StableRecord + Send>,
    link: ChannelLink<R>,
) -> Result<ClientTask<R>, RunFault>
    requires ready { IsClientReady book.old.opening client (finds stable) }
    requires ballots { book.old.opening.ballots ≡ ballots }
    requires few { length wishes.now ≤ MAX_WISHES }
    requires placed { ArePlaced ballots wishes.now }
    ensures task { IfOk result (λ task. IsClientTask book.old.table task.client task.ballots task.wishes.items task.berth (finds task.stable)) }
    ensures own { IfOk result (λ task. task.wishes.items ≡ own_wishes task.client wishes.now) }
    ensures client { IfOk result (λ task. task.client ≡ client) }
    ensures link { IfOk result (λ task. task.link ≡ link) }
    ensures table { IfOk result (λ _. book.new.table ≡ book.old.table) }
    ensures opening { IfOk result (λ _. book.new.opening ≡ book.old.opening) }
    ensures err { IfErr result (λ f. f ≡ RunFault.Memory) }
{
    let wishes = wishes_of(alloc, client, wishes)?;
    let berth = berth_of(book, Actor::Client(client))?;
    Ok(ClientTask {
        client,
        ballots,
        wishes,
        berth,
        stable,
        link,
    })
}

/// The tasks of all nodes, in order.
pub(crate) fn node_tasks<R: Wait + Copy>(
    alloc: Global,
    book: &mut Book,
    pairs: Vec<Pair>,
    records: Vec<Box<dyn StableRecord + Send>>,
    links: Vec<ChannelLink<R>>,
) -> Result<Vec<NodeTask<R>>, RunFault>
    requires few { length pairs.items ≤ MAX_NODES }
    requires records { length records.items ≡ length pairs.items }
    requires links { length links.items ≡ length pairs.items }
    requires ready { AreNodesReady 0 book.old.opening (map (λ r. finds r) records.items) }
    ensures tasks { IfOk result (λ tasks. All (λ task. IsNodeTask book.old.table task.node task.berth (finds task.stable)) tasks.items) }
    // There is a task for each node, and each has the link of its place.
    ensures all_nodes { IfOk result (λ tasks. map (λ task. task.node) tasks.items ≡ range_with_len 1 (length pairs.items)) }
    ensures links { IfOk result (λ tasks. map (λ task. task.link) tasks.items ≡ links.items) }
    ensures table { IfOk result (λ _. book.new.table ≡ book.old.table) }
    ensures opening { IfOk result (λ _. book.new.opening ≡ book.old.opening) }
    ensures err { IfErr result (λ f. f ≡ RunFault.Memory) }
{
    let count = pairs.len();
    let (mut pairs, mut records, mut links) = (pairs, records, links);
    let mut tasks = Vec::new(alloc);
    for place in 0..count {
        let Some(node) = NodeId::of(place as u8 + 1) else {
            unreachable!()
        };
        let policies = pairs.remove(0);
        let stable = records.remove(0);
        let link = links.remove(0);
        let task = node_task(book, node, stable, policies, link)?;
        let Ok(()) = tasks.push(task) else {
            return Err(RunFault::Memory);
        };
    }
    Ok(tasks)
}

/// The tasks of all clients, in order, each with all its own wishes.
pub(crate) fn client_tasks<R: Wait + Copy>(
    alloc: Global,
    book: &mut Book,
    ballots: BallotList,
    wishes: &[Wish],
    records: Vec<Box<dyn StableRecord + Send>>,
    links: Vec<ChannelLink<R>>,
) -> Result<Vec<ClientTask<R>>, RunFault>
    requires few { length records.items ≤ MAX_CLIENTS }
    requires links { length links.items ≡ length records.items }
    requires ready { AreClientsReady 0 book.old.opening (map (λ r. finds r) records.items) }
    requires ballots { book.old.opening.ballots ≡ ballots }
    requires few_wishes { length wishes.now ≤ MAX_WISHES }
    requires placed { ArePlaced ballots wishes.now }
    ensures tasks { IfOk result (λ tasks. All (λ task. IsClientTask book.old.table task.client task.ballots task.wishes.items task.berth (finds task.stable)) tasks.items) }
    ensures own { IfOk result (λ tasks. All (λ task. task.wishes.items ≡ own_wishes task.client wishes.now) tasks.items) }
    // There is a task for each client, and each has the link of its place.
    ensures all_clients { IfOk result (λ tasks. map (λ task. task.client) tasks.items ≡ range_with_len 1 (length records.items)) }
    ensures links { IfOk result (λ tasks. map (λ task. task.link) tasks.items ≡ links.items) }
    ensures table { IfOk result (λ _. book.new.table ≡ book.old.table) }
    ensures opening { IfOk result (λ _. book.new.opening ≡ book.old.opening) }
    ensures err { IfErr result (λ f. f ≡ RunFault.Memory) }
{
    let count = records.len();
    let (mut records, mut links) = (records, links);
    let mut tasks = Vec::new(alloc);
    for place in 0..count {
        let Some(client) = ClientId::of(place as u32 + 1) else {
            unreachable!()
        };
        let stable = records.remove(0);
        let link = links.remove(0);
        let task = client_task(alloc, book, client, ballots, wishes, stable, link)?;
        let Ok(()) = tasks.push(task) else {
            return Err(RunFault::Memory);
        };
    }
    Ok(tasks)
}

// A run, from its world to its end.

ghost use Rattle.std.specs.Prelude.{◌≡◌, ◌≤◌, ◌+◌, ◌++◌, length, map, true, All, IfOk, IfErr};
ghost use Rattle.std.specs.List.{range_with_len};
ghost use Rattle.client_loop.specs.Visits.{ArePlaced};
ghost use Rattle.history_book.specs.Books.{enters, Known};
ghost use Rattle.lock_messages.specs.declared.ids.TheConstants.{MAX_NODES, MAX_CLIENTS};
ghost use Rattle.lossy_link.specs.ChannelLinks.{link_at};
ghost use Rattle.world_machine.specs.Keeping.{KeepsRecords};
ghost use Rattle.world_machine.specs.Listing.{has_actor};
ghost use Rattle.world_model.specs.Forgetting.{IsSound};
ghost use Rattle.world_model.specs.Locality.{IsHistory};
ghost use Rattle.node_threads.specs.Conditions.{MayRun};
ghost use Rattle.node_threads.specs.Faults.{AreFaults};
ghost use Rattle.node_threads.specs.Tasks.{IsNodeTask, IsClientTask, own_wishes};
ghost use Rattle.node_threads.specs.Wishes.{AllDidAsWished};

use crate::berths::{client_tasks, node_tasks};
use crate::ends::{ClientEnd, Ends, faults_of};
use crate::runs::opened;
use crate::tasks::{ClientTask, NodeTask};
use admission_policy::Pair;
use book_recorders::Logs;
use event_lines::{MAX_WISHES, Wish};
use event_recorders::{Gate, RunFault};
use history_book::{Berth, Book, BookFault};
use lock_messages::{Actor, ResourceName, Ticket};
use lossy_link::{ChannelLink, Weather};
use stable_record::StableRecord;
use std::alloc::Global;
use std::marker::Brand;
use std::sync::Wait;
use std::thread::Threads;
use vote_weights::BallotList;
use world_machine::World;
use world_model::{Effect, Event};

/// The number of a run's book. A program makes one book at a time, so any number names it.
pub(crate) const BOOK: u64 = 1;

/// What a run leaves: the book with the whole history, how many entries it has, and the actors whose
/// threads ended by a fault, nodes first.
#[derive(Drop)]
pub struct RunEnd {
    pub book: Book,
    pub entered: u32,
    pub faults: Vec<(Actor, RunFault)>,
}

/// A run's book, to the recorders of its threads. It is a type of this crate, since a function that is
/// handed boxes can't name an impl of another crate for a type that has boxes, as `Book` has.
#[derive(Drop)]
pub(crate) struct SharedBook {
    pub(crate) book: Book,
}

impl Logs for SharedBook {
    ghost book = { λ s. s.book };

    fn log(&mut self, berth: &mut Berth, event: Event) -> Result<Effect, BookFault> {
        self.book.log(berth, event)
    }

    fn observe(&mut self, berth: &mut Berth) -> Result<(), BookFault> {
        self.book.observe(berth)
    }

    fn meet(&mut self, one: &mut Berth, other: &mut Berth) -> Result<bool, BookFault> {
        self.book.meet(one, other)
    }

    fn inside(
        &mut self,
        berth: &mut Berth,
        resource: &ResourceName,
    ) -> Result<Vec<Ticket>, BookFault> {
        self.book.inside(berth, resource)
    }
}

/// What all threads are given.
#[derive(Drop)]
struct Tasks<R: Wait + Copy> {
    nodes: Vec<NodeTask<R>>,
    clients: Vec<ClientTask<R>>,
}

/// The links of so many nodes, and of so many clients, each with the weather at its own place, nodes first.
pub(crate) fn links_of<R: Wait + Copy>(
    rt: R,
    alloc: Global,
    nodes: usize,
    clients: usize,
    weather: &Weather,
) -> Result<(Vec<ChannelLink<R>>, Vec<ChannelLink<R>>), RunFault>
    requires few_nodes { nodes ≤ MAX_NODES }
    requires few_clients { clients ≤ MAX_CLIENTS }
    ensures nodes { IfOk result (λ links. length links.0.items ≡ nodes) }
    ensures clients { IfOk result (λ links. length links.1.items ≡ clients) }
    ensures links { IfOk result (λ links. links.0.items ++ links.1.items ≡ map (link_at nodes weather.now) (range_with_len 0 (nodes + clients))) }
    ensures err { IfErr result (λ f. f ≡ RunFault.Memory) }
{
    let Ok(mut links) = ChannelLink::all(rt, alloc, nodes as u8, clients as u16, weather) else {
        return Err(RunFault::Memory);
    };
    let Ok(others) = links.split_off(nodes) else {
        return Err(RunFault::Memory);
    };
    Ok((links, others))
}

/// The tasks of all actors of the book's world, one for each and in order, each with its berth and its link,
/// a client with all its own wishes.
#[tactic(auto, using(crate::proofs::Openings::ready_nodes, crate::proofs::Openings::ready_clients))]
fn tasks_of<R: Wait + Copy>(
    rt: R,
    alloc: Global,
    ballots: BallotList,
    wishes: &[Wish],
    records: Vec<Box<dyn StableRecord + Send>>,
    pairs: Vec<Pair>,
    weather: &Weather,
    book: &mut Book,
) -> Result<Tasks<R>, RunFault>
    requires may { MayRun book.old.opening ballots (length pairs.items) (map (λ r. finds r) records.items) }
    requires keeps { KeepsRecords book.old.opening }
    requires sound { IsSound book.old.opening }
    requires few { length wishes.now ≤ MAX_WISHES }
    requires placed { ArePlaced ballots wishes.now }
    ensures nodes { IfOk result (λ tasks. All (λ task. IsNodeTask book.new.table task.node task.berth (finds task.stable)) tasks.nodes.items) }
    ensures clients { IfOk result (λ tasks. All (λ task. IsClientTask book.new.table task.client task.ballots task.wishes.items task.berth (finds task.stable)) tasks.clients.items) }
    ensures own { IfOk result (λ tasks. All (λ task. task.wishes.items ≡ own_wishes task.client wishes.now) tasks.clients.items) }
    // There is a task for each node and each client of the world, and each has the link of its place in this weather.
    ensures all_nodes { IfOk result (λ tasks. map (λ task. task.node) tasks.nodes.items ≡ range_with_len 1 (length book.old.opening.nodes)) }
    ensures all_clients { IfOk result (λ tasks. map (λ task. task.client) tasks.clients.items ≡ range_with_len 1 (length book.old.opening.clients)) }
    ensures links { let nodes = length book.old.opening.nodes in
        IfOk result (λ tasks. map (λ task. task.link) tasks.nodes.items ++ map (λ task. task.link) tasks.clients.items
        ≡ map (link_at nodes weather.now) (range_with_len 0 (nodes + length book.old.opening.clients))) }
    ensures opening { IfOk result (λ _. book.new.opening ≡ book.old.opening) }
    ensures err { IfErr result (λ f. f ≡ RunFault.Memory) }
{
    let count = pairs.len();
    let others = records.len() - count;
    let Ok((node_links, client_links)) = links_of(rt, alloc, count, others, weather) else {
        return Err(RunFault::Memory);
    };
    let mut records = records;
    let Ok(client_records) = records.split_off(count) else {
        return Err(RunFault::Memory);
    };
    let Ok(nodes) = node_tasks(alloc, book, pairs, records, node_links) else {
        return Err(RunFault::Memory);
    };
    let Ok(clients) = client_tasks(alloc, book, ballots, wishes, client_records, client_links)
    else {
        return Err(RunFault::Memory);
    };
    Ok(Tasks { nodes, clients })
}

/// Ties each client's berth to the book again.
fn tie_all(book: &mut Book, ends: Vec<ClientEnd>)
    requires { All (λ end. end.berth.table ≡ book.old.table) ends.items }
    ensures book { book.new ≡ book.old }
    ensures tied { All (λ end. Known book.old end.berth) ends.items }
{
    for ended in ends {
        let ClientEnd { berth, .. } = ended;
        let mut berth = berth;
        book.tie(&mut berth);
    }
}

/// Runs the service: a thread for each node and each client, which log in one book over the world, until
/// all have ended. The book's history is a run from the world, and `entered` is how many Enters it has.
///
/// Each client has its own wishes, in the order in which they stand here. Its link and those of nodes have
/// the weather, each at its own place, nodes first. The gate is called in the threads. Between two events a
/// thread holds no lock, and there is none round all of them. A thread that ends by a fault is told in
/// `faults`, nodes first; the others go on.
///
/// The caller owes the world's own ballots; a world whose actors are all down with nothing tried, and whose
/// list of messages is empty; one record an actor, nodes first, each of which finds just what its actor has
/// kept in the world; one pair of policies a node; and wishes of the world's clients, at most `MAX_WISHES`,
/// whose places the ballots have. No thread sends a switch of the problem; a caller's link may.
///
/// The only error is that memory was refused or a thread couldn't be started (914). Then the threads that
/// were started have ended, and what was handed in is dropped.
///
/// It waits for all threads. They have ended once every client has; or, where clients wait for what can't
/// come any more, once every thread that has not ended waits at its link and nothing lies in an inbox: then
/// nodes end without a fault, and clients that wait for votes by 912. So a run ends wherever its records
/// and its gate do. That is tested and not proved, since no contract sees an inbox.
pub fn run_all<R: Threads + Wait + Copy + Send, G: Gate + Sync>(
    rt: R,
    alloc: Global,
    ballots: BallotList,
    wishes: &[Wish],
    records: Vec<Box<dyn StableRecord + Send>>,
    world: World,
    pairs: Vec<Pair>,
    weather: Weather,
    gate: &G,
) -> Result<RunEnd, RunFault>
    requires may { MayRun world ballots (length pairs.items) (map (λ r. finds r) records.items) }
    requires few { length wishes.now ≤ MAX_WISHES }
    requires placed { ArePlaced ballots wishes.now }
    requires theirs { All (λ wish. has_actor world (Actor.Client wish.client) ≡ true) wishes.now }
    // The book was opened with the world, and its history is a run from there.
    ensures opening { IfOk result (λ end. end.book.opening ≡ world) }
    ensures history { IfOk result (λ end. IsHistory world end.book.history end.book.world) }
    ensures entered { IfOk result (λ end. end.entered ≡ enters end.book.history) }
    // Those that are told as ended by a fault stand in order, none twice, each with a fault that it may have.
    ensures faults { IfOk result (λ end. AreFaults world end.faults.items) }
    // Each client began and entered its own wishes alone, in order, and all of them unless it is told.
    ensures wished { IfOk result (λ end. AllDidAsWished world end.book.history wishes.now end.faults.items) }
    ensures err { IfErr result (λ f. f ≡ RunFault.Memory) }
{
    world.soundness();
    world.keeping();
    let mut book = match Book::over(alloc, BOOK, world) {
        Ok(book) => book,
        Err((_world, _fault)) => return Err(RunFault::Memory),
    };
    let Ok(tasks) = tasks_of(
        rt, alloc, ballots, wishes, records, pairs, &weather, &mut book,
    ) else {
        return Err(RunFault::Memory);
    };
    let Tasks { nodes, clients } = tasks;
    let shared = SharedBook { book };
    let (shared, ended) = opened::<Brand, SharedBook, R, G>(
        rt, alloc, shared, nodes, clients, gate,
    );
    let SharedBook { book } = shared;
    let Ok(ends) = ended else {
        return Err(RunFault::Memory);
    };
    let Ok(faults) = faults_of(alloc, &ends) else {
        return Err(RunFault::Memory);
    };
    let mut book = book;
    let Ends { clients, .. } = ends;
    tie_all(&mut book, clients);
    book.standing();
    let entered = book.entered();
    Ok(RunEnd {
        book,
        entered,
        faults,
    })
}

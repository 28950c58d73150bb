// A service with the caller inside, from its world to its end.

ghost use Rattle.std.specs.Prelude.{◌≡◌, ◌≤◌, ◌+◌, ◌++◌, length, map, All, IfOk, IfErr};
ghost use Rattle.std.specs.List.{filter_map, range_with_len};
ghost use Rattle.history_book.specs.Books.{enters, Known};
ghost use Rattle.lock_messages.specs.declared.ids.TheConstants.{MAX_CLIENTS};
ghost use Rattle.lossy_link.specs.ChannelLinks.{link_at};
ghost use Rattle.world_machine.specs.Keeping.{KeepsRecords};
ghost use Rattle.world_model.specs.Forgetting.{IsSound};
ghost use Rattle.world_model.specs.Locality.{IsHistory};
ghost use Rattle.node_threads.specs.Conditions.{MayRun};
ghost use Rattle.node_threads.specs.Ends.{AreNodeEnds, node_fault};
ghost use Rattle.node_threads.specs.Faults.{AreFaults};
ghost use Rattle.node_threads.specs.SessionEnds.{AreSessionEnds, session_fault};
ghost use Rattle.node_threads.specs.Sessions.{AreRecords};
ghost use Rattle.node_threads.specs.Tasks.{IsNodeTask, IsClientBerth};

use crate::berths::node_tasks;
use crate::ends::node_faults;
use crate::opened::Opened;
use crate::running::{BOOK, SharedBook, links_of};
use crate::serving::{Served, serve_threads};
use crate::session_ends::SessionEnd;
use crate::session_lists::session_faults;
use crate::session_tasks::{SessionTask, session_tasks};
use crate::tasks::NodeTask;
use crate::works::Work;
use admission_policy::Pair;
use berth_seats::OpenedWith;
use book_recorders::{BookName, Logs, Named};
use event_recorders::RunFault;
use history_book::{Berth, Book};
use lock_messages::{Actor, ClientId};
use lock_session::{OpenGate, OwnRecord};
use lossy_link::Weather;
use stable_record::StableRecord;
use std::alloc::Global;
use std::marker::Brand;
use std::sync::{Mutex, Wait};
use std::thread::Threads;
use vote_weights::BallotList;
use world_machine::World;

/// What a service leaves: the book with the whole history, how many entries it has, the actors that ended by
/// faults, nodes first, and the records that were handed in for clients, each with its client.
#[derive(Drop)]
pub struct ServiceEnd<S> {
    pub book: Book,
    pub entered: u32,
    pub faults: Vec<(Actor, RunFault)>,
    pub records: Vec<(ClientId, S)>,
}

/// What nodes' threads and clients' sessions are given.
#[derive(Drop)]
struct ServiceTasks<S, R: Wait + Copy> {
    nodes: Vec<NodeTask<R>>,
    clients: Vec<SessionTask<S, R>>,
}

/// Puts the book of this name behind a lock while the service runs, and hands it back.
fn named_service<
    B: BookName + Send,
    K: Logs + Send,
    S: OwnRecord + Send,
    R: Threads + Wait + Copy + Send + Sync,
    J: Work + Sync,
>(
    rt: R,
    alloc: Global,
    book: K,
    ballots: BallotList,
    tasks: ServiceTasks<S, R>,
    work: &J,
) -> (K, Result<Served<S>, RunFault>)
    requires table { (K.book book).table ≡ B.table }
    requires nodes { All (λ task. IsNodeTask B.table task.node task.berth ((StableRecord-box task.stable).finds task.stable.value)) tasks.nodes.items }
    requires few { length tasks.clients.items ≤ MAX_CLIENTS }
    requires clients { All (λ t. IsClientBerth B.table t.client ballots t.berth (S.StableRecord.finds t.stable)) tasks.clients.items }
    requires all_clients { map (λ t. t.client) tasks.clients.items ≡ range_with_len 1 (length tasks.clients.items) }
    ensures table { (K.book result.0).table ≡ (K.book book).table }
    ensures nodes { IfOk result.1 (λ served. AreNodeEnds (map (λ t. t.node) tasks.nodes.items) served.nodes.items) }
    ensures clients { IfOk result.1 (λ served. AreSessionEnds S.StableRecord.finds (K.book book).table (length tasks.clients.items) served.clients.items) }
    ensures err { IfErr result.1 (λ f. f ≡ RunFault.Memory) }
{
    let ServiceTasks { nodes, clients } = tasks;
    let lock = Mutex::new(Named::<B, K>::of(book));
    let served = serve_threads(rt, alloc, ballots, nodes, clients, &lock, &OpenGate, work);
    (lock.into_inner().into_book(), served)
}

/// Runs the service over the book, and hands it back; it is still the book of the same opening.
fn opened_service<
    O: OpenedWith + Send,
    K: Logs + Send,
    S: OwnRecord + Send,
    R: Threads + Wait + Copy + Send + Sync,
    J: Work + Sync,
>(
    rt: R,
    alloc: Global,
    book: K,
    ballots: BallotList,
    tasks: ServiceTasks<S, R>,
    work: &J,
) -> (K, Result<Served<S>, RunFault>)
    requires opening { (K.book book).opening ≡ O.world }
    requires nodes { All (λ task. IsNodeTask (K.book book).table task.node task.berth ((StableRecord-box task.stable).finds task.stable.value)) tasks.nodes.items }
    requires few { length tasks.clients.items ≤ MAX_CLIENTS }
    requires clients { All (λ t. IsClientBerth (K.book book).table t.client ballots t.berth (S.StableRecord.finds t.stable)) tasks.clients.items }
    requires all_clients { map (λ t. t.client) tasks.clients.items ≡ range_with_len 1 (length tasks.clients.items) }
    ensures opening { (K.book result.0).opening ≡ O.world }
    ensures table { (K.book result.0).table ≡ (K.book book).table }
    ensures nodes { IfOk result.1 (λ served. AreNodeEnds (map (λ t. t.node) tasks.nodes.items) served.nodes.items) }
    ensures clients { IfOk result.1 (λ served. AreSessionEnds S.StableRecord.finds (K.book book).table (length tasks.clients.items) served.clients.items) }
    ensures err { IfErr result.1 (λ f. f ≡ RunFault.Memory) }
{
    let book = Opened::<O, K>::of(book);
    let (book, served) = named_service::<Brand, Opened<O, K>, S, R, J>(
        rt, alloc, book, ballots, tasks, work,
    );
    (book.into_book(), served)
}

/// What the threads of all nodes of the book's world and the sessions of all its clients are given, in order, each
/// with its berth and its link.
fn service_tasks<S: OwnRecord, R: Wait + Copy>(
    rt: R,
    alloc: Global,
    node_records: Vec<Box<dyn StableRecord + Send>>,
    client_records: Vec<S>,
    pairs: Vec<Pair>,
    weather: &Weather,
    book: &mut Book,
) -> Result<ServiceTasks<S, R>, RunFault>
    requires records { length node_records.items ≡ length pairs.items }
    requires may { MayRun book.old.opening book.old.opening.ballots (length pairs.items) (map (λ r. (StableRecord-box r).finds r.value) node_records.items ++ map (λ r. S.StableRecord.finds r) client_records.items) }
    requires keeps { KeepsRecords book.old.opening }
    requires sound { IsSound book.old.opening }
    ensures nodes { IfOk result (λ tasks. All (λ task. IsNodeTask book.new.table task.node task.berth ((StableRecord-box task.stable).finds task.stable.value)) tasks.nodes.items) }
    ensures clients { IfOk result (λ tasks. All (λ t. IsClientBerth book.new.table t.client book.old.opening.ballots t.berth (S.StableRecord.finds t.stable)) tasks.clients.items) }
    // There is one for each node and each client of the world, and each has the link of its place in this weather.
    ensures all_nodes { IfOk result (λ tasks. map (λ task. task.node) tasks.nodes.items ≡ range_with_len 1 (length book.old.opening.nodes)) }
    ensures all_clients { IfOk result (λ tasks. map (λ t. t.client) tasks.clients.items ≡ range_with_len 1 (length book.old.opening.clients)) }
    ensures links { let nodes = length book.old.opening.nodes in
        IfOk result (λ tasks. map (λ task. task.link) tasks.nodes.items ++ map (λ t. t.link) tasks.clients.items
        ≡ map (link_at nodes weather.now) (range_with_len 0 (nodes + length book.old.opening.clients))) }
    ensures opening { IfOk result (λ _. book.new.opening ≡ book.old.opening) }
    ensures err { IfErr result (λ f. f ≡ RunFault.Memory) }
{
    let count = pairs.len();
    let others = client_records.len();
    let Ok((node_links, client_links)) = links_of(rt, alloc, count, others, weather) else {
        return Err(RunFault::Memory);
    };
    let Ok(nodes) = node_tasks(alloc, book, pairs, node_records, node_links) else {
        return Err(RunFault::Memory);
    };
    let Ok(clients) = session_tasks(alloc, book, client_records, client_links) else {
        return Err(RunFault::Memory);
    };
    Ok(ServiceTasks { nodes, clients })
}

/// Ties each berth to the book once more, and hands the records back, each with its client.
fn hand_back<S: OwnRecord>(
    alloc: Global,
    book: &mut Book,
    ends: Vec<SessionEnd<S>>,
) -> Result<Vec<(ClientId, S)>, RunFault>
    requires { All (λ e. e.berth.table ≡ book.old.table) ends.items }
    ensures book { book.new ≡ book.old }
    ensures tied { IfOk result (λ _. All (λ e. Known book.old e.berth) ends.items) }
    ensures records { IfOk result (λ records. records.items ≡ map (λ e. (e.client, e.stable)) ends.items) }
    ensures err { IfErr result (λ f. f ≡ RunFault.Memory) }
{
    let mut records = Vec::new(alloc);
    for ended in ends {
        let SessionEnd {
            client,
            stable,
            berth,
            ..
        } = ended;
        let mut berth = berth;
        book.tie(&mut berth);
        let Ok(()) = records.push((client, stable)) else {
            return Err(RunFault::Memory);
        };
    }
    Ok(records)
}

/// What is told of a service whose nodes and sessions ended so.
fn told<S: OwnRecord>(
    alloc: Global,
    book: Book,
    served: Served<S>,
) -> Result<ServiceEnd<S>, RunFault>
    requires { All (λ e. e.berth.table ≡ book.table) served.clients.items }
    ensures book { IfOk result (λ end. end.book ≡ book) }
    ensures tied { IfOk result (λ _. All (λ e. Known book e.berth) served.clients.items) }
    ensures entered { IfOk result (λ end. end.entered ≡ enters book.history) }
    ensures faults { IfOk result (λ end. end.faults.items ≡ filter_map node_fault served.nodes.items ++ filter_map session_fault served.clients.items) }
    ensures records { IfOk result (λ end. end.records.items ≡ map (λ e. (e.client, e.stable)) served.clients.items) }
    ensures err { IfErr result (λ f. f ≡ RunFault.Memory) }
{
    let Served { nodes, clients } = served;
    let Ok(mut faults) = node_faults(alloc, nodes.as_slice()) else {
        return Err(RunFault::Memory);
    };
    let Ok(mut others) = session_faults(alloc, clients.as_slice()) else {
        return Err(RunFault::Memory);
    };
    let Ok(()) = faults.append(&mut others) else {
        return Err(RunFault::Memory);
    };
    let mut book = book;
    let Ok(records) = hand_back(alloc, &mut book, clients) else {
        return Err(RunFault::Memory);
    };
    let entered = book.entered();
    Ok(ServiceEnd {
        book,
        entered,
        faults,
        records,
    })
}

/// Runs the service with the caller inside: a thread for each node, and one for each client, in which the caller's
/// work is done with the client's session. All log in one book over the world; its history is a run from the world,
/// and `entered` is how many Enters it has.
///
/// Each client's session rises before the work begins. One that doesn't is told in `faults`, and the work has no
/// session for it. When the work with a session returns, its client says what a guard that was dropped, or
/// forgotten, has left to say. When all have returned, each session is taken apart: nodes learn that it is gone, and
/// they end once all are. A session that is over by a fault is told in `faults`, behind nodes. Each record comes back
/// with its client, and a restart finds in it nothing but what the client has kept or tries to keep; a client that
/// isn't told is up and outside, and a restart finds just the attempt that it has kept.
///
/// Links have the weather, each at its own place, nodes first. Between two events no lock is held.
///
/// The caller owes the world's own ballots; a world whose actors are all down with nothing tried, and whose
/// list of messages is empty; one record a node and one a client, each of which finds just what its actor has
/// kept in the world; and one pair of policies a node.
///
/// The only error is that memory was refused or a thread couldn't be started (914). Then the threads that
/// were started have ended, and what was handed in is dropped.
///
/// It waits for the work, and then for nodes, which end once all sessions are gone. So it ends wherever the work
/// does, and a work that waits for a lock of which no other thread lets go waits for good. That is tested and
/// not proved, since no contract sees an inbox.
pub fn with_sessions<S: OwnRecord + Send, R: Threads + Wait + Copy + Send + Sync, J: Work + Sync>(
    rt: R,
    alloc: Global,
    ballots: BallotList,
    node_records: Vec<Box<dyn StableRecord + Send>>,
    client_records: Vec<S>,
    world: World,
    pairs: Vec<Pair>,
    weather: Weather,
    work: &J,
) -> Result<ServiceEnd<S>, RunFault>
    requires records { length node_records.items ≡ length pairs.items }
    requires may { MayRun world ballots (length pairs.items) (map (λ r. (StableRecord-box r).finds r.value) node_records.items ++ map (λ r. S.StableRecord.finds r) client_records.items) }
    // The book was opened with the world, and its history is a run from there.
    ensures opening { IfOk result (λ end. end.book.opening ≡ world) }
    ensures history { IfOk result (λ end. IsHistory world end.book.history end.book.world) }
    ensures entered { IfOk result (λ end. end.entered ≡ enters end.book.history) }
    // Those that are told as ended by a fault stand in order, none twice, each with a fault that it may have.
    ensures faults { IfOk result (λ end. AreFaults world end.faults.items) }
    // The record of each client comes back, in order, with nothing in it but what the client has kept or tries to
    // keep; one that isn't told rests, with just its attempt in its record.
    ensures records { IfOk result (λ end. AreRecords world end.book.world end.faults.items (map (λ r. (r.0, S.StableRecord.finds r.1)) end.records.items)) }
    ensures err { IfErr result (λ f. f ≡ RunFault.Memory) }
{
    world.soundness();
    world.keeping();
    let mut book = match Book::over(alloc, BOOK, world) {
        Ok(book) => book,
        Err((_world, _fault)) => return Err(RunFault::Memory),
    };
    let Ok(tasks) = service_tasks(
        rt,
        alloc,
        node_records,
        client_records,
        pairs,
        &weather,
        &mut book,
    ) else {
        return Err(RunFault::Memory);
    };
    let shared = SharedBook { book };
    let (shared, served) = opened_service::<Brand, SharedBook, S, R, J>(
        rt, alloc, shared, ballots, tasks, work,
    );
    let SharedBook { book } = shared;
    let Ok(served) = served else {
        return Err(RunFault::Memory);
    };
    let Ok(end) = told(alloc, book, served) else {
        return Err(RunFault::Memory);
    };
    end.book.standing();
    Ok(end)
}

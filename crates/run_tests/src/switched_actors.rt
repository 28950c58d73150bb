// The threads of a run in which each node's link switches the node's problem.

ghost use Rattle.std.specs.Prelude.{◌≡◌, ◌≤◌, ◌∷◌, [], length, All, IfOk};
ghost use Rattle.book_recorders.specs.Sharing.{log_of};
ghost use Rattle.client_loop.specs.Visits.{ArePlaced};
ghost use Rattle.lock_messages.specs.declared.ids.TheConstants.{MAX_CLIENTS};
ghost use Rattle.lock_model.specs.Ballots.{node_count, HasPlace};
ghost use Rattle.book_support.specs.Fresh.{IsNewBook};

use crate::boxed::record_on;
use crate::gates::OpenGate;
use crate::storms::own_text;
use crate::switching_links::SwitchingLink;
use book_recorders::{BookName, BookRecorder, Logs, Named};
use book_support::{book_over, new_berth};
use client_loop::run_client;
use event_lines::{MAX_WISHES, Wish, read_wish};
use event_recorders::RunFault;
use history_book::{Berth, Book};
use lock_messages::{Actor, ClientId, NodeId};
use lock_model::Problem;
use lossy_link::{ChannelLink, Weather};
use node_loop::run_node;
use stable_record::client_bytes;
use std::alloc::Global;
use std::marker::{Brand, Model, PhantomData};
use std::sync::{Mutex, Wait};
use std::thread;
use std::thread::Threads;
use test_outcomes::{Failure, Outcome};
use test_support::{Device, new_world, nothing_kept, plain_pair};
use vote_weights::BallotList;

/// What is given to a run: how many wishes each client has, on which device each record lies, and the weather.
#[derive(Drop)]
pub(crate) struct Setting {
    pub(crate) wishes: u32,
    pub(crate) device: Device,
    pub(crate) weather: Weather,
}

/// What a node's thread is given, in the book of this name.
#[derive(Drop)]
struct NodeTask<B: BookName, R: Wait + Copy> {
    node: NodeId,
    ballots: BallotList,
    berth: Berth,
    device: Device,
    link: SwitchingLink<R>,
    name: PhantomData<B>,
}

impl<B: BookName, R: Wait + Copy> Model for NodeTask<B, R> {
    ghost use Rattle.std.specs.Prelude.{◌≡◌};
    ghost use Rattle.history_book.specs.Books.{BerthValue};
    ghost use Rattle.book_recorders.specs.Sharing.{log_of};
    ghost use Rattle.run_tests.specs.Fresh.{node_log};

    ghost Value = { BerthValue };

    ghost view = { λ t. t.berth };

    ghost invariant = { λ t. (t.berth.table ≡ B.table) × (log_of t.berth ≡ node_log t.ballots t.node) };
}

/// What a client's thread is given, in the book of this name.
#[derive(Drop)]
struct ClientTask<B: BookName, R: Wait + Copy> {
    client: ClientId,
    ballots: BallotList,
    wishes: u32,
    berth: Berth,
    device: Device,
    link: ChannelLink<R>,
    name: PhantomData<B>,
}

impl<B: BookName, R: Wait + Copy> Model for ClientTask<B, R> {
    ghost use Rattle.std.specs.Prelude.{◌≡◌};
    ghost use Rattle.history_book.specs.Books.{BerthValue};
    ghost use Rattle.book_recorders.specs.Sharing.{log_of};
    ghost use Rattle.run_tests.specs.Fresh.{client_log};

    ghost Value = { BerthValue };

    ghost view = { λ t. t.berth };

    ghost invariant = { λ t. (t.berth.table ≡ B.table) × (log_of t.berth ≡ client_log t.ballots t.client) };
}

/// What a thread is given.
#[derive(Drop)]
enum Task<B: BookName, R: Wait + Copy> {
    Node(NodeTask<B, R>),
    Client(ClientTask<B, R>),
}

/// What a fault by which an actor ends is to a test that expects none.
fn of_run(fault: RunFault, row: usize) -> Failure {
    match fault {
        RunFault::Memory => Failure::Memory,
        _ => Failure::Wrong(row),
    }
}

/// Runs a node to its end.
#[tactic(auto, using(crate::proofs::Fresh::node_ready))]
fn do_node<B: BookName, K: Logs, R: Wait + Copy>(
    rt: R,
    alloc: Global,
    task: NodeTask<B, R>,
    book: &Mutex<Named<B, K>>,
) -> Result<u32, Failure> {
    let NodeTask {
        node,
        berth,
        device,
        link,
        ..
    } = task;
    let stable = record_on(
        alloc,
        device,
        nothing_kept(alloc, Problem::First)?.as_slice(),
    )?;
    let policies = plain_pair();
    let mut link = link;
    let mut recorder = BookRecorder::of(rt, book, berth);
    match run_node(
        &rt,
        alloc,
        node,
        stable,
        policies,
        &mut recorder,
        &mut link,
        &OpenGate,
    ) {
        Ok(()) => Ok(0),
        Err(fault) => Err(of_run(fault, usize::from(node.get()))),
    }
}

/// A wish of this client, by one of the ballots.
fn own_wish(
    alloc: Global,
    client: ClientId,
    ballots: &BallotList,
    round: u32,
) -> Result<Wish, Failure>
    ensures own { IfOk result (λ w. w.client ≡ client) }
    ensures placed { IfOk result (λ w. HasPlace ballots.now w.place) }
{
    let text = own_text(alloc, client.get(), round)?;
    let Ok(wish) = read_wish(text.as_slice()) else {
        return Err(Failure::Wrong(0));
    };
    if wish.client.get() != client.get() || ballots.ballot(wish.place).is_none() {
        return Err(Failure::Wrong(0));
    }
    Ok(wish)
}

/// So many wishes of this client, by these ballots.
fn own_wishes(
    alloc: Global,
    client: ClientId,
    ballots: &BallotList,
    count: u32,
) -> Result<Vec<Wish>, Failure>
    ensures own { IfOk result (λ v. All (λ wish. wish.client ≡ client) v.items) }
    ensures placed { IfOk result (λ v. ArePlaced ballots.now v.items) }
    ensures few { IfOk result (λ v. length v.items ≤ MAX_WISHES) }
{
    let mut wishes = Vec::new(alloc);
    for round in 0..count {
        wishes.push(own_wish(alloc, client, ballots, round)?)?;
    }
    if wishes.len() > MAX_WISHES {
        return Err(Failure::Wrong(0));
    }
    Ok(wishes)
}

/// Runs a client to its end; answers how often it entered, which is once for each wish.
fn do_client<B: BookName, K: Logs, R: Wait + Copy>(
    rt: R,
    alloc: Global,
    task: ClientTask<B, R>,
    book: &Mutex<Named<B, K>>,
) -> Result<u32, Failure> {
    let ClientTask {
        client,
        ballots,
        wishes,
        berth,
        device,
        link,
        ..
    } = task;
    let wishes = own_wishes(alloc, client, &ballots, wishes)?;
    let stable = record_on(alloc, device, &client_bytes(0))?;
    let mut link = link;
    let mut recorder = BookRecorder::of(rt, book, berth);
    match run_client(
        &rt,
        alloc,
        client,
        ballots,
        &wishes,
        stable,
        &mut recorder,
        &mut link,
        &OpenGate,
    ) {
        Ok(entered) => Ok(entered),
        Err((_, fault)) => Err(of_run(fault, 100)),
    }
}

fn do_task<B: BookName, K: Logs, R: Wait + Copy>(
    rt: R,
    alloc: Global,
    task: Task<B, R>,
    book: &Mutex<Named<B, K>>,
) -> Result<u32, Failure> {
    match task {
        Task::Node(task) => do_node(rt, alloc, task, book),
        Task::Client(task) => do_client(rt, alloc, task, book),
    }
}

/// Does each task in a thread of its own; answers how often clients entered.
fn do_all<B: BookName + Send + Sync, K: Logs + Send, R: Threads + Wait + Copy + Send + Sync>(
    rt: R,
    alloc: Global,
    tasks: Vec<Task<B, R>>,
    book: &Mutex<Named<B, K>>,
) -> Result<u32, Failure> {
    let ended = thread::map_vec(
        &rt,
        tasks,
        &|task: Task<B, R>| do_task(rt, alloc, task, book),
    )?;
    let mut entered = 0u32;
    for one in ended {
        entered = entered.saturating_add(one?);
    }
    Ok(entered)
}

/// Does the tasks over this book, and hands it back.
fn under_lock<B: BookName + Send + Sync, K: Logs + Send, R: Threads + Wait + Copy + Send + Sync>(
    rt: R,
    alloc: Global,
    book: K,
    tasks: Vec<Task<B, R>>,
) -> (K, Result<u32, Failure>)
    requires { (K.book book).table ≡ B.table }
{
    let lock = Mutex::new(Named::<B, K>::of(book));
    let entered = do_all(rt, alloc, tasks, &lock);
    (lock.into_inner().into_book(), entered)
}

fn node_task<B: BookName, R: Wait + Copy>(
    ballots: BallotList,
    clients: u16,
    book: &mut Book,
    node: NodeId,
    device: Device,
    link: ChannelLink<R>,
) -> Result<NodeTask<B, R>, Failure>
    requires new { IsNewBook ballots Problem.First clients book.old }
    requires name { book.old.table ≡ B.table }
    requires some { 1 ≤ node }
    requires there { node ≤ node_count ballots }
    ensures new { IsNewBook ballots Problem.First clients book.new }
    ensures table { book.new.table ≡ book.old.table }
{
    let berth = new_berth(ballots, Problem::First, clients, book, Actor::Node(node))?;
    Ok(NodeTask {
        node,
        ballots,
        berth,
        device,
        link: SwitchingLink::over(link),
        name: PhantomData,
    })
}

fn client_task<B: BookName, R: Wait + Copy>(
    ballots: BallotList,
    clients: u16,
    book: &mut Book,
    client: ClientId,
    setting: &Setting,
    link: ChannelLink<R>,
) -> Result<ClientTask<B, R>, Failure>
    requires new { IsNewBook ballots Problem.First clients book.old }
    requires name { book.old.table ≡ B.table }
    requires some { 1 ≤ client }
    requires there { client ≤ clients }
    ensures new { IsNewBook ballots Problem.First clients book.new }
    ensures table { book.new.table ≡ book.old.table }
{
    let berth = new_berth(
        ballots,
        Problem::First,
        clients,
        book,
        Actor::Client(client),
    )?;
    Ok(ClientTask {
        client,
        ballots,
        wishes: setting.wishes,
        berth,
        device: setting.device,
        link,
        name: PhantomData,
    })
}

/// The link that was made first.
fn first_of<R: Wait + Copy>(links: &mut Vec<ChannelLink<R>>) -> Result<ChannelLink<R>, Failure> {
    if links.is_empty() {
        return Err(Failure::Wrong(0));
    }
    Ok(links.remove(0))
}

/// A task for each node.
fn node_tasks<B: BookName, R: Wait + Copy>(
    ballots: BallotList,
    clients: u16,
    book: &mut Book,
    device: Device,
    links: &mut Vec<ChannelLink<R>>,
    tasks: &mut Vec<Task<B, R>>,
) -> Outcome
    requires new { IsNewBook ballots Problem.First clients book.old }
    requires name { book.old.table ≡ B.table }
    ensures new { IsNewBook ballots Problem.First clients book.new }
    ensures table { book.new.table ≡ book.old.table }
{
    for place in 0..ballots.nodes() {
        let Some(node) = NodeId::of(place + 1) else {
            return Err(Failure::Wrong(0));
        };
        let link = first_of(links)?;
        let task = node_task::<B, R>(ballots, clients, book, node, device, link)?;
        tasks.push(Task::Node(task))?;
    }
    Ok(())
}

/// A task for each client.
fn client_tasks<B: BookName, R: Wait + Copy>(
    ballots: BallotList,
    clients: u16,
    book: &mut Book,
    setting: &Setting,
    links: &mut Vec<ChannelLink<R>>,
    tasks: &mut Vec<Task<B, R>>,
) -> Outcome
    requires new { IsNewBook ballots Problem.First clients book.old }
    requires name { book.old.table ≡ B.table }
    ensures new { IsNewBook ballots Problem.First clients book.new }
    ensures table { book.new.table ≡ book.old.table }
{
    for place in 0..clients {
        let Some(client) = ClientId::of(u32::from(place) + 1) else {
            return Err(Failure::Wrong(0));
        };
        let link = first_of(links)?;
        let task = client_task::<B, R>(ballots, clients, book, client, setting, link)?;
        tasks.push(Task::Client(task))?;
    }
    Ok(())
}

/// Gives each actor of a new book its task, and does them all. Answers the book, and how often clients entered.
fn named<B: BookName + Send + Sync, R: Threads + Wait + Copy + Send + Sync>(
    rt: R,
    alloc: Global,
    ballots: BallotList,
    clients: u16,
    book: Book,
    setting: &Setting,
    links: Vec<ChannelLink<R>>,
) -> Result<(Book, u32), Failure>
    requires new { IsNewBook ballots Problem.First clients book }
    requires name { book.table ≡ B.table }
{
    let (mut book, mut links) = (book, links);
    let mut tasks: Vec<Task<B, R>> = Vec::new(alloc);
    node_tasks(
        ballots,
        clients,
        &mut book,
        setting.device,
        &mut links,
        &mut tasks,
    )?;
    client_tasks(ballots, clients, &mut book, setting, &mut links, &mut tasks)?;
    let (book, entered) = under_lock::<B, Book, R>(rt, alloc, book, tasks);
    Ok((book, entered?))
}

/// A book over a new world of these ballots, under problem 1, and of so many clients, in which nothing is logged.
fn book(alloc: Global, ballots: BallotList, clients: u16) -> Result<Book, Failure>
    requires some { 1 ≤ clients }
    requires few { clients ≤ MAX_CLIENTS }
    ensures { IfOk result (λ b. IsNewBook ballots Problem.First clients b) }
{
    book_over(
        alloc,
        1,
        new_world(alloc, ballots, Problem::First, clients)?,
    )
}

/// Runs the nodes of these ballots and so many clients in this setting. Answers the book, and how often clients
/// entered.
pub(crate) fn run_switched<R: Threads + Wait + Copy + Send + Sync>(
    rt: R,
    alloc: Global,
    ballots: BallotList,
    clients: u16,
    setting: &Setting,
) -> Result<(Book, u32), Failure>
    requires some { 1 ≤ clients }
    requires few { clients ≤ MAX_CLIENTS }
{
    let weather = &setting.weather;
    let Ok(links) = ChannelLink::all(rt, alloc, ballots.nodes(), clients, weather) else {
        return Err(Failure::Memory);
    };
    let book = book(alloc, ballots, clients)?;
    named::<Brand, R>(rt, alloc, ballots, clients, book, setting, links)
}

// A world of one node and two clients in which all are down and nothing is kept, and the berths of a book over it.

ghost use Rattle.std.specs.Prelude.{◌≡◌, IfOk};
ghost use Rattle.book_support.specs.Fresh.{IsNewBook, IsUnlogged};
ghost use Rattle.session_tests.specs.Fresh.{one_node_world, one_node};

use book_support::{book_over, new_berth};
use bytes::Bytes;
use history_book::{Berth, Book};
use lock_messages::{Actor, Message, Mode, encode};
use lock_model::Problem;
use std::alloc::Global;
use test_outcomes::{Failure, client_id, node_id};
use test_support::{ballots_of, first_ticket, new_world};
use vote_weights::BallotList;
use world_machine::World;

/// The list of one ballot: a node with a vote, which is enough to read and to write.
pub(crate) fn ballots() -> Result<BallotList, Failure>
    ensures { IfOk result (λ b. b ≡ one_node) }
{
    ballots_of(&[1], 1, 1)
}

/// A world of that ballot and of two clients, in which nothing has happened.
pub(crate) fn world(alloc: Global, ballots: BallotList) -> Result<World, Failure>
    requires { ballots ≡ one_node }
    ensures { IfOk result (λ w. w ≡ one_node_world ballots) }
{
    new_world(alloc, ballots, Problem::First, 2)
}

/// A book over a new world, in which nothing is logged. (A library may not make the world that it hands out so.)
pub(crate) fn book(alloc: Global, ballots: BallotList) -> Result<Book, Failure>
    ensures { IfOk result (λ b. IsNewBook ballots Problem.First 2 b) }
{
    book_over(alloc, 1, new_world(alloc, ballots, Problem::First, 2)?)
}

/// The berths of the node, of c1 and of c2. (A tuple of them is dear to prove.)
#[derive(Drop)]
pub(crate) struct Berths {
    pub(crate) node: Berth,
    pub(crate) one: Berth,
    pub(crate) two: Berth,
}

/// The berths in a book in which nothing is logged, and none was given.
pub(crate) fn give_berths(ballots: BallotList, book: &mut Book) -> Result<Berths, Failure>
    requires { IsNewBook ballots Problem.First 2 book.old }
    ensures node { IfOk result (λ r. IsUnlogged ballots Problem.First 2 (Actor.Node 1) r.node book.new) }
    ensures one { IfOk result (λ r. IsUnlogged ballots Problem.First 2 (Actor.Client 1) r.one book.new) }
    ensures two { IfOk result (λ r. IsUnlogged ballots Problem.First 2 (Actor.Client 2) r.two book.new) }
{
    let (node, one, two) = (node_id(1), client_id(1), client_id(2));
    let node = new_berth(ballots, Problem::First, 2, book, Actor::Node(node))?;
    let one = new_berth(ballots, Problem::First, 2, book, Actor::Client(one))?;
    let two = new_berth(ballots, Problem::First, 2, book, Actor::Client(two))?;
    Ok(Berths { node, one, two })
}

/// The frame of some message for this client: which message is heard goes by the number.
pub(crate) fn frame_for(alloc: Global, client: u32) -> Result<Bytes, Failure> {
    let ticket = first_ticket(client, Mode::Read)?;
    match encode(alloc, &Message::Grant(node_id(1), ticket)) {
        Ok(frame) => Ok(frame),
        Err(_) => Err(Failure::Memory),
    }
}

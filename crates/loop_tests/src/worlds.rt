// The ballots of two nodes, and books over new worlds of theirs.

ghost use Rattle.std.specs.Prelude.{◌≡◌, ◌∷◌, [], IfOk};
ghost use Rattle.book_support.specs.Fresh.{IsNewBook, IsUnlogged};
ghost use Rattle.loop_tests.specs.Fresh.{two_nodes};

use book_support::{book_over, new_berth};
use history_book::{Berth, Book};
use lock_messages::Actor;
use lock_model::Problem;
use std::alloc::Global;
use test_outcomes::{Failure, client_id, node_id};
use test_support::{ballots_of, new_world};
use vote_weights::BallotList;

/// The list of one ballot: two nodes with a vote each, of which one reads and two write.
pub(crate) fn ballots() -> Result<BallotList, Failure>
    ensures { IfOk result (λ b. b ≡ two_nodes) }
{
    ballots_of(&[1, 1], 1, 2)
}

/// How many clients such a world has.
pub(crate) const CLIENTS: u16 = 3;

/// A book over a new world of such ballots, under this problem, in which nothing is logged.
fn book(alloc: Global, ballots: BallotList, problem: Problem) -> Result<Book, Failure>
    ensures { IfOk result (λ b. IsNewBook ballots problem 3 b) }
{
    book_over(alloc, 1, new_world(alloc, ballots, problem, CLIENTS)?)
}

/// A new book of those ballots, under this problem, with the berth of one actor and those of four others: of
/// another one, of n2, c2 and c3.
pub(crate) fn opened(
    alloc: Global,
    ballots: BallotList,
    problem: Problem,
    own: Actor,
    other: Actor,
) -> Result<(Book, Berth, (Berth, Berth, Berth, Berth)), Failure>
    ensures own { IfOk result (λ r. IsUnlogged ballots problem 3 own r.1 r.0) }
    ensures first { IfOk result (λ r. r.2.0.table ≡ r.0.table) }
    ensures second { IfOk result (λ r. r.2.1.table ≡ r.0.table) }
    ensures third { IfOk result (λ r. r.2.2.table ≡ r.0.table) }
    ensures fourth { IfOk result (λ r. r.2.3.table ≡ r.0.table) }
{
    let second = Actor::Node(node_id(2));
    let (third, fourth) = (Actor::Client(client_id(2)), Actor::Client(client_id(3)));
    let mut book = book(alloc, ballots, problem)?;
    let own = new_berth(ballots, problem, CLIENTS, &mut book, own)?;
    let first = new_berth(ballots, problem, CLIENTS, &mut book, other)?;
    let second = new_berth(ballots, problem, CLIENTS, &mut book, second)?;
    let third = new_berth(ballots, problem, CLIENTS, &mut book, third)?;
    let fourth = new_berth(ballots, problem, CLIENTS, &mut book, fourth)?;
    Ok((book, own, (first, second, third, fourth)))
}

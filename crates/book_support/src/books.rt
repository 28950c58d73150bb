// Books in which nothing is logged, and their berths.

ghost use Rattle.std.specs.Prelude.{◌≡◌, IfOk, IfErr};
ghost use Rattle.history_book.specs.Books.{IsOpened, IsGiven};
ghost use Rattle.book_support.specs.Fresh.{IsNewBook, IsUnlogged};

use crate::of_book;
use history_book::{Berth, Book};
use lock_messages::Actor;
use lock_model::Problem;
use std::alloc::Global;
use test_outcomes::Failure;
use vote_weights::BallotList;
use world_machine::World;

/// A book of this number over the world.
pub fn book_over(alloc: Global, number: u64, world: World) -> Result<Book, Failure>
    requires { Unit {0} }
    ensures { IfOk result (λ b. IsOpened number world b) }
{
    match Book::over(alloc, number, world) {
        Ok(book) => Ok(book),
        Err((_world, fault)) => Err(of_book(fault)),
    }
}

/// The berth of an actor that was given none, with all that is known of it. (Each fact makes the proof of a test that
/// has many berths dearer, so tests call what says less.)
fn given(book: &mut Book, actor: Actor) -> Result<Berth, Failure>
    requires { Unit {0} }
    ensures given { IfOk result (λ k. IsGiven actor book.old k book.new) }
    ensures refused { IfErr result (λ _. book.new ≡ book.old) }
{
    match book.berth(actor) {
        Ok(Some(berth)) => Ok(berth),
        Ok(None) => Err(Failure::Wrong(0)),
        Err(fault) => Err(of_book(fault)),
    }
}

/// The berth of an actor that was given none.
pub fn berth_of(book: &mut Book, actor: Actor) -> Result<Berth, Failure>
    requires { Unit {0} }
    ensures book { (book.new.number ≡ book.old.number) × (book.new.table ≡ book.old.table) }
    ensures berth { IfOk result (λ k. (k.number ≡ book.new.number) × (k.table ≡ book.new.table)) }
{
    given(book, actor)
}

/// The berth of an actor that was given none, in a new book of these ballots, under this problem, and of so many
/// clients, in which nothing is logged.
pub fn new_berth(
    ballots: BallotList,
    problem: Problem,
    clients: u16,
    book: &mut Book,
    actor: Actor,
) -> Result<Berth, Failure>
    requires { IsNewBook ballots problem clients book.old }
    ensures book { IsNewBook ballots problem clients book.new }
    ensures berth { IfOk result (λ k. IsUnlogged ballots problem clients actor k book.new) }
    ensures table { book.new.table ≡ book.old.table }
{
    let _ = (ballots, problem, clients);
    given(book, actor)
}

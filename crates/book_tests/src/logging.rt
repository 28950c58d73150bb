// Books, berths and logged events, with what a test may rest on.

ghost use Rattle.std.specs.Prelude.{◌≡◌, IfOk};
ghost use Rattle.history_book.specs.Books.{BookValue, BerthValue};

use crate::worlds::{Start, Who};
use book_support::{berth_of, book_over, of_book};
use history_book::{Berth, Book, BookFault};
use lock_messages::Actor;
use std::alloc::Global;
use test_outcomes::{Failure, Outcome, check, client_id, node_id};
use test_support::event;
use world_model::{Age, Effect, Event};

/// A book of this number over the world that starts so.
pub(crate) fn opened(alloc: Global, number: u64, start: Start) -> Result<Book, Failure>
    requires { Unit {0} }
    ensures { IfOk result (λ b. b.number ≡ number) }
{
    let Ok(world) = start.world(alloc) else {
        return Err(Failure::Memory);
    };
    book_over(alloc, number, world)
}

/// Whether the actor is given a berth, or can't be told for want of memory.
pub(crate) fn is_given(book: &mut Book, actor: Actor) -> bool
    requires { Unit {0} }
    ensures { (book.new.number ≡ book.old.number) × (book.new.table ≡ book.old.table) }
{
    berth_of(book, actor).err() != Some(Failure::Wrong(0))
}

/// Logs an event; the book and the berth are still those of one another.
pub(crate) fn log(book: &mut Book, berth: &mut Berth, event: Event) -> Result<Effect, BookFault>
    requires { berth.old.number ≡ book.old.number → berth.old.table ≡ book.old.table }
    ensures book { (book.new.number ≡ book.old.number) × (book.new.table ≡ book.old.table) }
    ensures berth { (berth.new.number ≡ berth.old.number) × (berth.new.table ≡ berth.old.table) }
{
    book.log(berth, event)
}

/// Logs the event of a line, and compares the answer. Where memory is refused nothing was added.
pub(crate) fn logs(
    book: &mut Book,
    berth: &mut Berth,
    line: &str,
    expected: Result<Effect, BookFault>,
) -> Outcome
    requires { berth.old.number ≡ book.old.number → berth.old.table ≡ book.old.table }
    ensures book { (book.new.number ≡ book.old.number) × (book.new.table ≡ book.old.table) }
    ensures berth { (berth.new.number ≡ berth.old.number) × (berth.new.table ≡ berth.old.table) }
{
    let event = event(line)?;
    let before = book.events();
    let answer = log(book, berth, event);
    if answer == Err(BookFault::Memory) && book.events() == before {
        return Err(Failure::Memory);
    }
    check(answer == expected)
}

/// Logs an event that may happen.
pub(crate) fn takes(book: &mut Book, berth: &mut Berth, event: Event) -> Outcome
    requires { berth.old.number ≡ book.old.number → berth.old.table ≡ book.old.table }
    ensures book { (book.new.number ≡ book.old.number) × (book.new.table ≡ book.old.table) }
    ensures berth { (berth.new.number ≡ berth.old.number) × (berth.new.table ≡ berth.old.table) }
{
    match log(book, berth, event) {
        Ok(_) => Ok(()),
        Err(fault) => Err(of_book(fault)),
    }
}

/// Logs the events of the lines, each of which may happen.
pub(crate) fn takes_all(book: &mut Book, berth: &mut Berth, lines: &str) -> Outcome
    requires { berth.old.number ≡ book.old.number → berth.old.table ≡ book.old.table }
    ensures book { (book.new.number ≡ book.old.number) × (book.new.table ≡ book.old.table) }
    ensures berth { (berth.new.number ≡ berth.old.number) × (berth.new.table ≡ berth.old.table) }
{
    for line in lines.lines() {
        let event = event(line)?;
        takes(book, berth, event)?;
    }
    Ok(())
}

/// c1 rises and falls in turn, so many times. No events are cheaper, since these send nothing, and the
/// records that they read are empty.
pub(crate) fn rises(book: &mut Book, berth: &mut Berth, times: u32) -> Outcome
    requires { berth.old.number ≡ book.old.number → berth.old.table ≡ book.old.table }
    ensures book { (book.new.number ≡ book.old.number) × (book.new.table ≡ book.old.table) }
    ensures berth { (berth.new.number ≡ berth.old.number) × (berth.new.table ≡ berth.old.table) }
{
    let who = &Who::C1.actor();
    let (rise, fall) = (&Event::Rise(*who, Age::Old), &Event::Fall(*who));
    for _ in 0..times {
        takes(book, berth, *rise)?;
        takes(book, berth, *fall)?;
    }
    Ok(())
}

/// c1 says its request to n1, so many times.
pub(crate) fn asks(book: &mut Book, berth: &mut Berth, times: u32) -> Outcome
    requires { berth.old.number ≡ book.old.number → berth.old.table ≡ book.old.table }
    ensures book { (book.new.number ≡ book.old.number) × (book.new.table ≡ book.old.table) }
    ensures berth { (berth.new.number ≡ berth.old.number) × (berth.new.table ≡ berth.old.table) }
{
    let asks = &Event::SayTo(client_id(1), node_id(1));
    for _ in 0..times {
        takes(book, berth, *asks)?;
    }
    Ok(())
}

/// Whether the two meet; they are still berths of the books whose they were.
pub(crate) fn meets(book: &mut Book, one: &mut Berth, other: &mut Berth) -> Result<bool, BookFault>
    requires one { one.old.number ≡ book.old.number → one.old.table ≡ book.old.table }
    requires other { other.old.number ≡ book.old.number → other.old.table ≡ book.old.table }
    ensures book { book.new ≡ book.old }
    ensures one { (one.new.number ≡ one.old.number) × (one.new.table ≡ one.old.table) }
    ensures other { (other.new.number ≡ other.old.number) × (other.new.table ≡ other.old.table) }
{
    book.meet(one, other)
}

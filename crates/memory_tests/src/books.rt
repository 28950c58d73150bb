// Books: 813 of what opens one, gives a berth, logs and tells who is inside, 818 of what writes its journal. After a refusal
// the history has no event more, and the same call does what it would have done.

ghost use Rattle.std.specs.Prelude.{◌≡◌, IfOk, OnOk};
ghost use Rattle.history_book.specs.Books.{BookValue, BerthValue};

use crate::failures::{Failure, Outcome, check, refused};
use crate::rooms::Room;
use history_book::{Berth, Book, BookFault, JournalFault};
use lock_messages::{Actor, Mode, Ticket};
use lock_model::Problem;
use std::alloc::Global;
use test_outcomes::{client_id, node_id};
use test_support::{ballots_of, client, event, first_ticket, new_world, node, resource};
use world_machine::World;
use world_model::Event;

/// A world of three nodes with a vote each, of which two read and two write, under problem 1, and of
/// four clients.
fn world(alloc: Global) -> Result<World, Failure> {
    let ballots = ballots_of(&[1, 1, 1], 2, 2)?;
    Ok(new_world(alloc, ballots, Problem::First, 4)?)
}

/// A book over that world; where memory is refused the world comes back, and opens a book after that.
fn opened(alloc: Global) -> Result<Book, Failure> {
    match Book::over(alloc, 7, world(alloc)?) {
        Ok(book) => Ok(book),
        Err((world, fault)) => {
            let again = Book::over(alloc, 7, world);
            refused(fault == BookFault::Memory && again.is_ok())
        }
    }
}

/// The berth of an actor; where memory is refused none was given, and it is given after that.
fn berth_of(book: &mut Book, actor: Actor) -> Result<Berth, Failure>
    requires { Unit {0} }
    ensures book { OnOk result ((book.new.number ≡ book.old.number) × (book.new.table ≡ book.old.table)) }
    ensures berth { IfOk result (λ k. k.table ≡ book.old.table) }
{
    let actor = &actor;
    match book.berth(*actor) {
        Ok(Some(berth)) => Ok(berth),
        Ok(None) => Err(Failure::Wrong),
        Err(fault) => {
            let again = book.berth(*actor);
            check(fault == BookFault::Memory && matches!(again, Ok(Some(_))))?;
            Err(Failure::Memory)
        }
    }
}

/// Logs an event; where memory is refused nothing was logged, and the same event is logged after that.
fn logs(book: &mut Book, berth: &mut Berth, event: Event) -> Outcome
    requires { berth.old.table ≡ book.old.table }
    ensures book { OnOk result ((book.new.number ≡ book.old.number) × (book.new.table ≡ book.old.table)) }
    ensures berth { OnOk result (berth.new.table ≡ berth.old.table) }
{
    let event = &event;
    let before = book.events();
    match book.log(berth, *event) {
        Ok(_) => Ok(()),
        Err(BookFault::Memory) => {
            check(book.events() == before)?;
            let again = book.log(berth, *event);
            refused(again.is_ok() && book.events() > before)
        }
        Err(_) => Err(Failure::Wrong),
    }
}

/// Logs the events of the lines.
fn logs_all(book: &mut Book, berth: &mut Berth, lines: &str) -> Outcome
    requires { berth.old.table ≡ book.old.table }
    ensures book { OnOk result ((book.new.number ≡ book.old.number) × (book.new.table ≡ book.old.table)) }
    ensures berth { OnOk result (berth.new.table ≡ berth.old.table) }
{
    for line in lines.lines() {
        logs(book, berth, event(line)?)?;
    }
    Ok(())
}

const ASKS: &str = "rise c1 old\nbegin c1 read a\ntry c1\nkept c1\nsayto c1 n1\n";

const GRANTS: &str = "rise n1 old\ntake n1 1\ntry n1\nkept n1\nsay n1\n";

const ASKS_ANOTHER: &str = "hear c1 2\nsayto c1 n2\n";

const GRANTS_TOO: &str = "rise n2 old\ntake n2 3\ntry n2\nkept n2\nsay n2\n";

const ENTERS: &str = "hear c1 4\nenter c1\n";

/// Logs the events of both lists of lines, of an actor that has no berth yet.
fn logs_of(book: &mut Book, actor: Actor, first: &str, second: &str) -> Outcome
    requires { Unit {0} }
    ensures book { OnOk result ((book.new.number ≡ book.old.number) × (book.new.table ≡ book.old.table)) }
{
    let mut berth = berth_of(book, actor)?;
    logs_both(book, &mut berth, first, second)
}

fn logs_both(book: &mut Book, berth: &mut Berth, first: &str, second: &str) -> Outcome
    requires { berth.old.table ≡ book.old.table }
    ensures book { OnOk result ((book.new.number ≡ book.old.number) × (book.new.table ≡ book.old.table)) }
{
    logs_all(book, berth, first)?;
    logs_all(book, berth, second)
}

/// A reader asks two nodes, hears two grants and enters.
fn reads(book: &mut Book, one: &mut Berth) -> Outcome
    requires { one.old.table ≡ book.old.table }
    ensures book { OnOk result ((book.new.number ≡ book.old.number) × (book.new.table ≡ book.old.table)) }
    ensures berth { OnOk result (one.new.table ≡ one.old.table) }
{
    let (first, second) = (Actor::Node(node_id(1)), Actor::Node(node_id(2)));
    logs_all(book, one, ASKS)?;
    logs_of(book, first, GRANTS, "")?;
    logs_all(book, one, ASKS_ANOTHER)?;
    logs_of(book, second, GRANTS_TOO, "")?;
    logs_all(book, one, ENTERS)
}

fn first_reader(book: &mut Book) -> Outcome
    requires { Unit {0} }
{
    let mut one = berth_of(book, Actor::Client(client_id(1)))?;
    reads(book, &mut one)
}

/// How many events were logged and how many clients entered, once a reader has.
fn has_logged_a_reader(book: &mut Book) -> Outcome
    requires { Unit {0} }
{
    first_reader(book)?;
    check(book.events() == 19 && book.entered() == 1)
}

#[test]
fn open_a_book(rt: HostRuntime) -> Outcome {
    check(opened(rt.alloc())?.events() == 0)
}

/// Gives the berth of an actor away.
fn gives_berth(book: &mut Book, actor: Actor) -> Outcome
    requires { Unit {0} }
{
    berth_of(book, actor)?;
    Ok(())
}

fn gives_berths(book: &mut Book) -> Outcome
    requires { Unit {0} }
{
    let last = Actor::Node(node_id(3));
    for number in 1..=4 {
        gives_berth(book, Actor::Client(client(number)?))?;
    }
    for number in 1..=3 {
        gives_berth(book, Actor::Node(node(number)?))?;
    }
    check(matches!(book.berth(last), Ok(None)))
}

#[test]
fn give_berths(rt: HostRuntime) -> Outcome {
    gives_berths(&mut opened(rt.alloc())?)
}

#[test]
fn log_the_first_reader(rt: HostRuntime) -> Outcome {
    has_logged_a_reader(&mut opened(rt.alloc())?)
}

/// Whether this ticket alone is inside.
fn is_alone(found: &Result<Vec<Ticket>, BookFault>, wanted: Ticket) -> bool {
    match found {
        Ok(tickets) => tickets.as_slice() == [wanted].as_slice(),
        Err(_) => false,
    }
}

/// Tells that the reader is inside; where memory is refused the same is told after that.
fn tells_inside(book: &mut Book, one: &mut Berth) -> Outcome
    requires { one.old.table ≡ book.old.table }
{
    let (name, reader) = (resource(b"a")?, first_ticket(1, Mode::Read)?);
    let found = book.inside(one, &name);
    match found {
        Err(BookFault::Memory) => {
            let again = book.inside(one, &name);
            refused(is_alone(&again, reader))
        }
        _ => check(is_alone(&found, reader)),
    }
}

fn reads_and_tells(book: &mut Book) -> Outcome
    requires { Unit {0} }
{
    let mut one = berth_of(book, Actor::Client(client_id(1)))?;
    reads(book, &mut one)?;
    tells_inside(book, &mut one)
}

#[test]
fn tell_who_is_inside(rt: HostRuntime) -> Outcome {
    reads_and_tells(&mut opened(rt.alloc())?)
}

const SWITCHES: &str = "switch n1 2\ntry n1\nkept n1\nsay n1\nswitch n1 2\nsay n1\n";

/// A node that has granted a reader takes problem 2, and once more.
fn has_logged_a_switch(book: &mut Book) -> Outcome
    requires { Unit {0} }
{
    let (one, first) = (Actor::Client(client_id(1)), Actor::Node(node_id(1)));
    logs_of(book, one, ASKS, "")?;
    logs_of(book, first, GRANTS, SWITCHES)?;
    check(book.events() == 16)
}

#[test]
fn log_a_switch(rt: HostRuntime) -> Outcome {
    has_logged_a_switch(&mut opened(rt.alloc())?)
}

/// Whether what was written is a beginning of the journal, or after no fault the whole of it.
fn is_written(out: &Room, is_whole: bool) -> bool {
    let mut rest = out.bytes();
    for part in [ASKS, GRANTS, ASKS_ANOTHER, GRANTS_TOO, ENTERS] {
        match rest.strip_prefix(part.as_bytes()) {
            Some(next) => rest = next,
            None => return !is_whole && part.as_bytes().starts_with(rest),
        }
    }
    rest.is_empty()
}

/// Writes the journal; where memory is refused a beginning is written, and all of it after that.
fn writes(alloc: Global, book: &Book) -> Outcome {
    let mut out = Room::empty();
    match book.write_journal(alloc, &mut out) {
        Ok(()) => check(is_written(&out, true)),
        Err(fault) => {
            let mut again = Room::empty();
            let written = book.write_journal(alloc, &mut again).is_ok() && is_written(&again, true);
            refused(fault == JournalFault::Memory && is_written(&out, false) && written)
        }
    }
}

fn writes_a_reader(alloc: Global, book: &mut Book) -> Outcome
    requires { Unit {0} }
{
    first_reader(book)?;
    writes(alloc, book)
}

#[test]
fn write_a_journal(rt: HostRuntime) -> Outcome {
    writes_a_reader(rt.alloc(), &mut opened(rt.alloc())?)
}

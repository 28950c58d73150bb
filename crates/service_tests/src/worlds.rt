// The world by its own calls: what events do, what is sent, who is inside, and where a run stops.
//
// A line of a table has an event and what it does, or asks which message is `sent` by a number or whose
// tickets are `inside` a resource.

use event_lines::read_event;
use lock_messages::{ResourceName, Ticket};
use lock_model::Problem;
use std::alloc::{AllocError, Global};
use test_outcomes::{Failure, Outcome, check, check_row};
use test_support::{ballots_of, event, new_world};
use world_machine::World;
use world_model::{Effect, Event, MAX_MESSAGES, StepFault};

/// A world's problem, and the votes of its nodes with what a read and a write need. It has four clients, and
/// all are down.
#[derive(Clone, Copy)]
pub(crate) struct Opening {
    problem: Problem,
    votes: &'static [u8],
    read: u16,
    write: u16,
}

/// Three nodes with a vote each, of which two read and two write.
pub(crate) const THREE_NODES: Opening = Opening {
    problem: Problem::First,
    votes: &[1, 1, 1],
    read: 2,
    write: 2,
};

/// The same under problem 2.
pub(crate) const THREE_UNDER_THE_SECOND: Opening = Opening {
    problem: Problem::Second,
    ..THREE_NODES
};

fn opened(alloc: Global, opening: &Opening) -> Result<World, Failure> {
    let ballots = ballots_of(opening.votes, opening.read, opening.write)?;
    new_world(alloc, ballots, opening.problem, 4)
}

/// The word for an effect that has nothing more to tell.
fn word(effect: &Effect) -> &'static str {
    match effect {
        Effect::Tried => "tried",
        Effect::Kept => "kept",
        Effect::Inside => "inside",
        Effect::Outside => "outside",
        Effect::Softened => "softened",
        Effect::Down => "down",
        Effect::Up => "up",
        Effect::Switched(true) => "changed",
        Effect::Switched(false) => "same",
        _ => "",
    }
}

/// Writes what a step did.
fn tell(text: &mut String, did: &Result<Effect, StepFault>) -> Result<(), AllocError> {
    match did {
        Err(fault) => write!(text, "refused {}", fault.number()),
        Ok(Effect::Chose(attempt)) => write!(text, "chose {attempt}"),
        Ok(Effect::Sent(number, message)) => write!(text, "sent {number} {message}"),
        Ok(Effect::Said { first, count }) => write!(text, "said {first} {count}"),
        Ok(Effect::Took(message, true)) => write!(text, "changed by {message}"),
        Ok(Effect::Took(message, false)) => write!(text, "same after {message}"),
        Ok(Effect::Heard(message, heard)) => write!(text, "{heard:?} {message}"),
        Ok(plain) => text.push_str(word(plain)),
    }
}

/// Writes the message of this number, or that there is none.
fn tell_sent(text: &mut String, world: &World, number: &str) -> Result<(), AllocError> {
    match world.sent(number.parse::<u32>().unwrap_or(u32::MAX)) {
        Some(message) => write!(text, "{message}"),
        None => text.push_str("nothing"),
    }
}

/// Writes these tickets, or that there is none.
fn tell_tickets(text: &mut String, tickets: &[Ticket]) -> Result<(), AllocError> {
    if tickets.is_empty() {
        return text.push_str("nobody");
    }
    for ticket in tickets {
        write!(text, "{ticket};")?;
    }
    Ok(())
}

fn tell_inside(text: &mut String, world: &World, name: &str) -> Outcome {
    let resource = ResourceName::of(name.as_bytes()).ok_or(Failure::Wrong(0))?;
    let inside = world.inside(&resource)?;
    Ok(tell_tickets(text, &inside)?)
}

/// Takes the event of a row, or asks what the row asks, and writes what comes of it.
fn takes(text: &mut String, world: &mut World, row: &str, number: usize) -> Outcome {
    if let Some(sent) = row.strip_prefix("sent ") {
        return Ok(tell_sent(text, world, sent)?);
    }
    if let Some(name) = row.strip_prefix("inside ") {
        return tell_inside(text, world, name);
    }
    let Ok(event) = read_event(row.as_bytes()) else {
        return Err(Failure::NoAnswer(number));
    };
    match world.step(&event) {
        Err(StepFault::Memory) => Err(Failure::Memory),
        did => Ok(tell(text, &did)?),
    }
}

/// Plays the row of this number, and compares what comes of it.
fn plays_row(alloc: Global, world: &mut World, row: &str, number: usize) -> Outcome {
    let (asked, wanted) = row.split_once(" > ").unwrap_or((row, ""));
    let mut text = String::new(alloc);
    takes(&mut text, world, asked, number)?;
    check_row(text.as_str() == wanted, number)
}

fn plays_table(alloc: Global, world: &mut World, table: &str) -> Outcome {
    for (number, row) in table.lines().enumerate() {
        plays_row(alloc, world, row, number)?;
    }
    Ok(())
}

fn plays_tables(alloc: Global, world: &mut World, tables: &[&str]) -> Outcome {
    for table in tables {
        plays_table(alloc, world, table)?;
    }
    Ok(())
}

/// Plays these tables in a world that opens so.
pub(crate) fn plays_in(alloc: Global, opening: &Opening, tables: &[&str]) -> Outcome {
    plays_tables(alloc, &mut opened(alloc, opening)?, tables)
}

/// Plays these tables in a world of three nodes.
pub(crate) fn plays(alloc: Global, tables: &[&str]) -> Outcome {
    plays_in(alloc, &THREE_NODES, tables)
}

pub(crate) const RISE: &str = "\
rise n1 old > up
rise n2 old > up
rise n3 old > up
rise c1 old > up
rise c2 old > up
rise c3 old > up
rise c4 old > up";

pub(crate) const CHOOSES: &str = "begin c1 read a > chose 1\ntry c1 > tried\nkept c1 > kept";

pub(crate) const ASKS: &str = "\
sayto c1 n1 > sent 1 request n1 c1 1 read a
take n1 1 > changed by request n1 c1 1 read a
try n1 > tried
kept n1 > kept
say n1 > said 2 1
hear c1 2 > Counted grant n1 c1 1 read a";

pub(crate) const ASKS_ANOTHER: &str = "\
enter c1 > refused 609
sayto c1 n2 > sent 3 request n2 c1 1 read a
take n2 3 > changed by request n2 c1 1 read a
try n2 > tried
kept n2 > kept
say n2 > said 4 1
hear c1 4 > Counted grant n2 c1 1 read a
enter c1 > inside";

/// c1 reads `a`, and leaves.
const READS: &str = "\
inside a > c1 1 read a;
sent 0 > nothing
sent 2 > grant n1 c1 1 read a
sent 4 > grant n2 c1 1 read a
sent 5 > nothing
leave c1 > outside
inside a > nobody
sayto c1 n1 > sent 5 release n1 c1 1";

#[test]
fn first_reader(rt: HostRuntime) -> Outcome {
    plays(rt.alloc(), &[RISE, CHOOSES, ASKS, ASKS_ANOTHER, READS])
}

const WRITES_BEHIND: &str = "\
begin c2 write a > chose 1
try c2 > tried
kept c2 > kept
sayto c2 n1 > sent 5 request n1 c2 1 write a
take n1 5 > changed by request n1 c2 1 write a
try n1 > tried
kept n1 > kept
say n1 > said 6 1
hear c2 6 > Busy busy n1 c2 1 write a
sayto c2 n3 > sent 7 request n3 c2 1 write a
take n3 7 > changed by request n3 c2 1 write a
try n3 > tried
kept n3 > kept
say n3 > said 8 1
hear c2 8 > Counted grant n3 c2 1 write a
enter c2 > refused 609";

#[test]
fn writer_behind_reader(rt: HostRuntime) -> Outcome {
    plays(
        rt.alloc(),
        &[RISE, CHOOSES, ASKS, ASKS_ANOTHER, WRITES_BEHIND],
    )
}

const REPEATED: &str = "hear c1 2 > Known grant n1 c1 1 read a\nenter c1 > refused 609";

#[test]
fn repeated_grant(rt: HostRuntime) -> Outcome {
    plays(rt.alloc(), &[RISE, CHOOSES, ASKS, REPEATED])
}

const SAYS_EARLY: &str = "\
begin c1 read a > chose 1
try c1 > tried
kept c1 > kept
sayto c1 n1 > sent 1 request n1 c1 1 read a
take n1 1 > changed by request n1 c1 1 read a
say n1 > refused 605
try n1 > tried
say n1 > refused 605
kept n1 > kept
say n1 > said 2 1
take n1 1 > same after request n1 c1 1 read a
say n1 > said 3 1";

#[test]
fn say_before_kept(rt: HostRuntime) -> Outcome {
    plays(rt.alloc(), &[RISE, SAYS_EARLY])
}

const STRANGERS: &str = "\
begin c5 read a > refused 601
try c5 > refused 601
try n4 > refused 601
kept c5 > refused 601
kept n4 > refused 601
sayto c5 n1 > refused 601
sayto c1 n4 > refused 601
say n4 > refused 601
take n4 1 > refused 601
switch n4 1 > refused 601
switch n4 2 > refused 601
hear c5 1 > refused 601
enter c5 > refused 601
leave c5 > refused 601
soften c5 > refused 601
fall c5 > refused 601
fall n4 > refused 601
rise c5 old > refused 601
rise n4 new > refused 601";

#[test]
fn refused_strangers(rt: HostRuntime) -> Outcome {
    plays(rt.alloc(), &[RISE, STRANGERS])
}

const AT_REST: &str = "\
try c1 > refused 604
try n1 > refused 604
kept c1 > refused 604
kept n1 > refused 604
sayto c1 n1 > refused 606
say n1 > refused 606
take n1 1 > refused 607
hear c1 1 > refused 607
enter c1 > refused 604
leave c1 > refused 604
soften c1 > refused 604";

#[test]
fn refused_at_rest(rt: HostRuntime) -> Outcome {
    plays(rt.alloc(), &[RISE, AT_REST])
}

const OF_A_CLIENT: &str = "\
begin c1 read a > chose 1
begin c1 read a > refused 604
sayto c1 n1 > refused 605
kept c1 > refused 611
leave c1 > refused 604
soften c1 > refused 604
try c1 > tried
try c1 > refused 604
kept c1 > kept
sayto c1 n2 > sent 1 request n2 c1 1 read a
take n1 1 > refused 608
hear c1 1 > refused 608
enter c1 > refused 609
soften c1 > refused 604
leave c1 > outside
soften c1 > refused 604";

#[test]
fn refused_clients(rt: HostRuntime) -> Outcome {
    plays(rt.alloc(), &[RISE, OF_A_CLIENT])
}

const WRITES: &str = "\
begin c1 write a > chose 1
try c1 > tried
kept c1 > kept
sayto c1 n1 > sent 1 request n1 c1 1 write a
take n1 1 > changed by request n1 c1 1 write a
try n1 > tried
kept n1 > kept
say n1 > said 2 1
hear c1 2 > Counted grant n1 c1 1 write a
sayto c1 n2 > sent 3 request n2 c1 1 write a
take n2 3 > changed by request n2 c1 1 write a
try n2 > tried
kept n2 > kept
say n2 > said 4 1
hear c1 4 > Counted grant n2 c1 1 write a
enter c1 > inside";

const A_READER_WAITS: &str = "\
begin c2 read a > chose 1
try c2 > tried
kept c2 > kept
sayto c2 n1 > sent 5 request n1 c2 1 read a
take n1 5 > changed by request n1 c2 1 read a
try n1 > tried
kept n1 > kept
say n1 > said 6 1
hear c2 6 > Busy busy n1 c2 1 read a";

const SOFTENS: &str = "\
inside a > c1 1 write a;
soften c1 > softened
soften c1 > refused 604
sayto c1 n1 > sent 7 soften n1 c1 1
take n1 7 > changed by soften n1 c1 1
try n1 > tried
kept n1 > kept
say n1 > said 8 2
hear c1 8 > Softened softened n1 c1 1
hear c2 9 > Counted grant n1 c2 1 read a
inside a > c1 1 read a;
sent 8 > softened n1 c1 1
sent 9 > grant n1 c2 1 read a";

// n2 was told nothing, and n3 had no request: it keeps nothing of the softening.
const THE_READER_ENTERS: &str = "\
sayto c1 n3 > sent 10 soften n3 c1 1
take n3 10 > same after soften n3 c1 1
say n3 > said 11 1
hear c1 11 > Softened softened n3 c1 1
sayto c2 n3 > sent 12 request n3 c2 1 read a
take n3 12 > changed by request n3 c2 1 read a
try n3 > tried
kept n3 > kept
say n3 > said 13 1
hear c2 13 > Counted grant n3 c2 1 read a
enter c2 > inside
soften c2 > refused 604
inside a > c1 1 read a;c2 1 read a;";

// c1 says its release to the node that never had its request, as to the others.
const LEAVES_SOFTENED: &str = "\
leave c1 > outside
soften c1 > refused 604
hear c1 8 > NotMine softened n1 c1 1
sayto c1 n2 > sent 14 release n2 c1 1
sayto c1 n3 > sent 15 release n3 c1 1
take n3 15 > changed by release n3 c1 1
inside a > c2 1 read a;";

const SOFTENED_WRITER: [&str; 6] = [
    RISE,
    WRITES,
    A_READER_WAITS,
    SOFTENS,
    THE_READER_ENTERS,
    LEAVES_SOFTENED,
];

#[test]
fn softened_writer(rt: HostRuntime) -> Outcome {
    plays(rt.alloc(), &SOFTENED_WRITER)
}

// A writer that waits stays out until the reader has left that was a writer.
const A_WRITER_WAITS: &str = "\
begin c2 write a > chose 1
try c2 > tried
kept c2 > kept
sayto c2 n1 > sent 5 request n1 c2 1 write a
take n1 5 > changed by request n1 c2 1 write a
try n1 > tried
kept n1 > kept
say n1 > said 6 1
soften c1 > softened
sayto c1 n1 > sent 7 soften n1 c1 1
take n1 7 > changed by soften n1 c1 1
try n1 > tried
kept n1 > kept
say n1 > said 8 1
sayto c2 n3 > sent 9 request n3 c2 1 write a
take n3 9 > changed by request n3 c2 1 write a
try n3 > tried
kept n3 > kept
say n3 > said 10 1
hear c2 10 > Counted grant n3 c2 1 write a
enter c2 > refused 609
take n1 5 > same after request n1 c2 1 write a
say n1 > said 11 1
hear c2 11 > Busy busy n1 c2 1 write a
leave c1 > outside
sayto c1 n1 > sent 12 release n1 c1 1
take n1 12 > changed by release n1 c1 1
try n1 > tried
kept n1 > kept
say n1 > said 13 2
hear c2 14 > Counted grant n1 c2 1 write a
enter c2 > inside
inside a > c2 1 write a;";

#[test]
fn writer_behind_a_softened(rt: HostRuntime) -> Outcome {
    plays(rt.alloc(), &[RISE, WRITES, A_WRITER_WAITS])
}

// While the node is busy and no such message was sent, the lower refusal is answered.
const OF_A_NODE: &str = "\
begin c1 read a > chose 1
try c1 > tried
kept c1 > kept
sayto c1 n2 > sent 1 request n2 c1 1 read a
take n2 1 > changed by request n2 c1 1 read a
kept n2 > refused 611
take n2 9 > refused 604
try n2 > tried
try n2 > refused 604
kept n2 > kept
try n2 > refused 604
kept n2 > refused 604
take n2 1 > refused 604";

#[test]
fn refused_nodes(rt: HostRuntime) -> Outcome {
    plays(rt.alloc(), &[RISE, OF_A_NODE])
}

/// Four of five votes write.
const FOUR_NODES: Opening = Opening {
    problem: Problem::First,
    votes: &[3, 1, 1, 0],
    read: 2,
    write: 4,
};

const FOURTH_RISES: &str = "rise n4 old > up";

const WEIGHTED: &str = "\
begin c1 write a > chose 1
try c1 > tried
kept c1 > kept
sayto c1 n1 > sent 1 request n1 c1 1 write a
take n1 1 > changed by request n1 c1 1 write a
try n1 > tried
kept n1 > kept
say n1 > said 2 1
hear c1 2 > Counted grant n1 c1 1 write a
enter c1 > refused 609
sayto c1 n4 > sent 3 request n4 c1 1 write a
take n4 3 > changed by request n4 c1 1 write a
try n4 > tried
kept n4 > kept
say n4 > said 4 1
hear c1 4 > Counted grant n4 c1 1 write a
enter c1 > refused 609
sayto c1 n2 > sent 5 request n2 c1 1 write a
take n2 5 > changed by request n2 c1 1 write a
try n2 > tried
kept n2 > kept
say n2 > said 6 1
hear c1 6 > Counted grant n2 c1 1 write a
enter c1 > inside";

/// Three and one are enough, three and none are not.
#[test]
fn weighted_votes(rt: HostRuntime) -> Outcome {
    plays_in(rt.alloc(), &FOUR_NODES, &[FOURTH_RISES, RISE, WEIGHTED])
}

/// The events of three rows.
fn three_events(rows: [&str; 3]) -> Result<[Event; 3], Failure> {
    let [first, second, third] = rows;
    let first = event(first)?;
    let second = event(second)?;
    let third = event(third)?;
    Ok([first, second, third])
}

/// Takes the events of three rows by `run`, as far as it goes; answers how many it took and what
/// stopped it.
fn run(world: &mut World, rows: [&str; 3]) -> Result<(usize, Option<StepFault>), Failure> {
    let events = three_events(rows)?;
    match world.run(&events) {
        Ok(taken) => Ok((taken, None)),
        Err((_, StepFault::Memory)) => Err(Failure::Memory),
        Err((taken, fault)) => Ok((taken, Some(fault))),
    }
}

const CHOOSING: [&str; 3] = ["begin c1 read a", "try c1", "kept c1"];

const ASKING: [&str; 3] = ["sayto c1 n1", "enter c1", "sayto c1 n2"];

fn stops(world: &mut World) -> Outcome {
    check(world.run(&[]) == Ok(0))?;
    check(run(world, CHOOSING)? == (3, None))?;
    check(run(world, ASKING)? == (1, Some(StepFault::NoQuorum)))
}

const ASKED_ONCE: &str = "sent 1 > request n1 c1 1 read a\nsent 2 > nothing";

/// Runs in a world whose actors rise, and which then has the first request alone.
fn runs(alloc: Global, world: &mut World) -> Outcome {
    plays_table(alloc, world, RISE)?;
    stops(world)?;
    plays_table(alloc, world, ASKED_ONCE)
}

#[test]
fn a_run_stops_at_a_refusal(rt: HostRuntime) -> Outcome {
    runs(rt.alloc(), &mut opened(rt.alloc(), &THREE_NODES)?)
}

const TAKES: &str = "\
take n1 1 > changed by request n1 c1 1 read a
try n1 > tried
kept n1 > kept";

// A client that waits to be kept is refused by that, which is the lower number.
const FULL: &str = "\
sayto c1 n1 > refused 612
say n1 > refused 612
begin c2 read a > chose 1
sayto c2 n1 > refused 605
leave c1 > outside
sayto c1 n1 > refused 612";

// Who says nothing needs no room.
const SAYS_NOTHING: &str = "\
switch n2 1 > same
say n2 > said 1048577 0
switch n2 2 > changed
try n2 > tried
kept n2 > kept
say n2 > said 1048577 0";

/// c1 says its request to n1.
fn asks_again(world: &mut World) -> Outcome {
    let Ok(ask) = event("sayto c1 n1") else {
        return Err(Failure::Wrong(0));
    };
    match world.step(&ask) {
        Ok(_) => Ok(()),
        Err(fault) => Err(fault.into()),
    }
}

fn fills(alloc: Global, world: &mut World) -> Outcome {
    plays_tables(alloc, world, &[RISE, CHOOSES])?;
    for _ in 0..MAX_MESSAGES {
        asks_again(world)?;
    }
    plays_tables(alloc, world, &[TAKES, FULL, SAYS_NOTHING])
}

#[test]
fn a_full_list(rt: HostRuntime) -> Outcome {
    fills(rt.alloc(), &mut opened(rt.alloc(), &THREE_NODES)?)
}

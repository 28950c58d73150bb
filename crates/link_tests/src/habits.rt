//! A client's link learns how long a node takes to answer, and looks for the answer when it may come.

use crate::desks::{Coming, Desk, Notes, Timed, coming_answer, parcel};
use crate::places::{client, node};
use crate::repeats::link_at;
use lock_messages::Actor;
use lossy_link::{Link, Post};
use std::alloc::Global;
use std::sync::Wait;
use test_outcomes::{Failure, Outcome, check_row, node_id};

/// The node answers each 10 ms, for so many times.
const ANSWERS: u64 = 40;

const EACH: u64 = 10;

/// The answers of the node, and another one a millisecond after the last.
fn answers(alloc: Global) -> Result<Vec<Coming>, Failure> {
    let mut coming = Vec::new(alloc);
    for number in 1..=ANSWERS {
        coming.push(coming_answer(alloc, number * EACH, node_id(1))?)?;
    }
    coming.push(coming_answer(alloc, ANSWERS * EACH + 1, node_id(1))?)?;
    Ok(coming)
}

/// Waits for an answer. Returns how often the link looked for it.
fn looks_until<L: Link>(link: &mut L, notes: &Notes) -> Result<u64, Failure> {
    let before = notes.takes();
    check_row(matches!(link.receive(), Ok(Post::Parcel(_))), 2)?;
    Ok(notes.takes().saturating_sub(before))
}

/// Sends something to the node and waits for its answer. Returns how often the link looked for it.
fn looks<L: Link>(link: &mut L, alloc: Global, notes: &Notes) -> Result<u64, Failure> {
    check_row(link.send(node(), parcel(alloc, b"ask")?).is_ok(), 1)?;
    looks_until(link, notes)
}

/// At first the link looks more than 60 times for an answer after 10 ms, and in the end less than 10 times.
fn looks_less<L: Link>(link: &mut L, alloc: Global, notes: &Notes) -> Outcome {
    check_row(looks(link, alloc, notes)? > 60, 3)?;
    for _ in 2..ANSWERS {
        looks(link, alloc, notes)?;
    }
    check_row(looks(link, alloc, notes)? < 10, 4)?;
    check_row(notes.millis() == ANSWERS * EACH, 5)
}

/// An answer that comes earlier than usual waits until the link looks for the first time.
fn looks_late<L: Link>(link: &mut L, alloc: Global, notes: &Notes) -> Outcome {
    check_row(looks(link, alloc, notes)? < 4, 6)?;
    check_row(notes.millis() <= ANSWERS * EACH + 8, 7)
}

/// At first the link sleeps for 0.05 ms, and each time longer by a 32nd. Once it has learned that the node takes 10 ms, it
/// sleeps for some 7 ms, and then looks each half of a millisecond.
fn learns<W: Wait + Copy>(wait: W, alloc: Global) -> Outcome {
    let notes = Notes::new();
    let rt = Timed {
        wait,
        notes: &notes,
    };
    let desk = Desk::of(alloc, &notes, answers(alloc)?, 1_000);
    let mut link = link_at(rt, alloc, client(), desk, None);
    looks_less(&mut link, alloc, &notes)?;
    looks_late(&mut link, alloc, &notes)
}

#[test]
fn a_node_that_takes_as_long_each_time(rt: HostRuntime) -> Outcome {
    learns(rt, rt.alloc())
}

/// Asks two nodes. After the answer of the first the link looks less than 20 times for that of the second.
fn looks_on<L: Link>(link: &mut L, alloc: Global, notes: &Notes) -> Outcome {
    let other = Actor::Node(node_id(2));
    check_row(link.send(node(), parcel(alloc, b"ask")?).is_ok(), 1)?;
    check_row(link.send(other, parcel(alloc, b"ask")?).is_ok(), 1)?;
    check_row(looks_until(link, notes)? > 60, 3)?;
    check_row(looks_until(link, notes)? < 20, 4)?;
    check_row(notes.millis() == 18, 5)
}

/// The second node answers 8 ms after the first, which answers after 10 ms. The link sleeps on for a 16th of the time that it
/// has waited for the second node, and does not begin at 0.05 ms again.
fn goes_on<W: Wait + Copy>(wait: W, alloc: Global) -> Outcome {
    let notes = Notes::new();
    let rt = Timed {
        wait,
        notes: &notes,
    };
    let mut coming = Vec::new(alloc);
    coming.push(coming_answer(alloc, 10, node_id(1))?)?;
    coming.push(coming_answer(alloc, 18, node_id(2))?)?;
    let desk = Desk::of(alloc, &notes, coming, 1_000);
    let mut link = link_at(rt, alloc, client(), desk, None);
    looks_on(&mut link, alloc, &notes)
}

#[test]
fn a_second_node_that_takes_longer(rt: HostRuntime) -> Outcome {
    goes_on(rt, rt.alloc())
}

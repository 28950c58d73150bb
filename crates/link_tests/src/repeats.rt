//! What a link puts again by itself, when, and when it brings that a node is gone.

use crate::desks::{Coming, Desk, Notes, Timed, coming_answer, coming_frame, parcel};
use crate::links::brings;
use crate::places::{client, node, secret};
use line_link::{Limit, LineLink, Pauses};
use lock_messages::{Actor, NodeId};
use lossy_link::{Link, LinkFault, Post};
use std::alloc::Global;
use std::sync::Wait;
use test_outcomes::{Outcome, check_row, node_id};

/// The link of an actor over a carrier of the test, with the pauses of its kind.
pub(crate) fn link_at<'a, W: Wait + Copy>(
    rt: Timed<'a, W>,
    alloc: Global,
    own: Actor,
    desk: Desk<'a>,
    limit: Option<Limit>,
) -> LineLink<Timed<'a, W>, Desk<'a>> {
    let pauses = match own {
        Actor::Node(_) => Pauses::of_node(),
        Actor::Client(_) => Pauses::of_client(),
    };
    LineLink::over(rt, alloc, own, (secret(), secret()), desk, pauses, limit)
}

/// Whether the next post is that the node is gone.
pub(crate) fn loses<L: Link>(link: &mut L, node: NodeId, row: usize) -> Outcome {
    let came = link.receive();
    check_row(came == Ok(Post::Gone(node)), row)
}

/// Whether nothing comes any more.
pub(crate) fn ends<L: Link>(link: &mut L, row: usize) -> Outcome {
    let came = link.receive();
    check_row(came == Err(LinkFault::Closed), row)
}

/// Without an answer the line is put again after 20 ms, then after twice as long each time. After 500 ms the node is gone,
/// once, and no line is put to it any more.
fn loses_once<W: Wait + Copy>(wait: W, alloc: Global) -> Outcome {
    let notes = Notes::new();
    let rt = Timed {
        wait,
        notes: &notes,
    };
    let desk = Desk::of(alloc, &notes, Vec::new(alloc), 10_000);
    let mut link = link_at(rt, alloc, client(), desk, None);
    check_row(link.send(node(), parcel(alloc, b"ask")?).is_ok(), 1)?;
    loses(&mut link, node_id(1), 2)?;
    check_row(notes.millis() == 500, 3)?;
    check_row(notes.has_puts_at(&[0, 20, 60, 140, 300]), 4)?;
    check_row(notes.has_puts_to(&[1, 1, 1, 1, 1]), 5)?;
    check_row(!notes.has_other(), 6)?;
    ends(&mut link, 7)?;
    check_row(notes.has_puts_at(&[0, 20, 60, 140, 300]), 8)
}

#[test]
fn a_silent_node(rt: HostRuntime) -> Outcome {
    loses_once(rt, rt.alloc())
}

/// A node that is gone is awaited again once something is sent to it.
fn loses_again<W: Wait + Copy>(wait: W, alloc: Global) -> Outcome {
    let notes = Notes::new();
    let rt = Timed {
        wait,
        notes: &notes,
    };
    let desk = Desk::of(alloc, &notes, Vec::new(alloc), 1_100);
    let mut link = link_at(rt, alloc, client(), desk, None);
    check_row(link.send(node(), parcel(alloc, b"ask")?).is_ok(), 1)?;
    loses(&mut link, node_id(1), 2)?;
    check_row(link.send(node(), parcel(alloc, b"ask")?).is_ok(), 3)?;
    loses(&mut link, node_id(1), 4)?;
    check_row(notes.millis() == 1_000, 5)?;
    ends(&mut link, 6)
}

#[test]
fn a_node_that_is_asked_again(rt: HostRuntime) -> Outcome {
    loses_again(rt, rt.alloc())
}

/// Once a node has answered, its line is put again only after a second. Then it is awaited again, and is gone if it died.
fn dies_in_a_wait<W: Wait + Copy>(wait: W, alloc: Global) -> Outcome {
    let notes = Notes::new();
    let rt = Timed {
        wait,
        notes: &notes,
    };
    let mut coming = Vec::new(alloc);
    coming.push(coming_answer(alloc, 30, node_id(1))?)?;
    let desk = Desk::of(alloc, &notes, coming, 9_000);
    let mut link = link_at(rt, alloc, client(), desk, None);
    check_row(link.send(node(), parcel(alloc, b"ask")?).is_ok(), 1)?;
    check_row(matches!(link.receive(), Ok(Post::Parcel(_))), 2)?;
    check_row(notes.has_puts_at(&[0, 20]), 3)?;
    loses(&mut link, node_id(1), 4)?;
    check_row(
        notes.has_puts_at(&[0, 20, 1_020, 1_040, 1_080, 1_160, 1_320]),
        5,
    )?;
    check_row(notes.millis() == 1_520, 6)?;
    ends(&mut link, 7)
}

#[test]
fn a_node_that_dies_while_one_waits(rt: HostRuntime) -> Outcome {
    dies_in_a_wait(rt, rt.alloc())
}

/// The frame of another node, and one that is no message, are brought and are no answer.
fn hears_others<W: Wait + Copy>(wait: W, alloc: Global) -> Outcome {
    let notes = Notes::new();
    let rt = Timed {
        wait,
        notes: &notes,
    };
    let mut coming: Vec<Coming> = Vec::new(alloc);
    coming.push(coming_frame(alloc, 5, b"no message")?)?;
    coming.push(coming_answer(alloc, 30, node_id(2))?)?;
    let desk = Desk::of(alloc, &notes, coming, 100);
    let mut link = link_at(rt, alloc, client(), desk, None);
    check_row(link.send(node(), parcel(alloc, b"ask")?).is_ok(), 1)?;
    brings(&mut link, b"no message", 2)?;
    check_row(matches!(link.receive(), Ok(Post::Parcel(_))), 3)?;
    ends(&mut link, 4)?;
    check_row(notes.has_puts_at(&[0, 20, 60]), 5)?;
    check_row(link.dropped() == 0, 6)
}

#[test]
fn frames_that_are_no_answer(rt: HostRuntime) -> Outcome {
    hears_others(rt, rt.alloc())
}

/// Each of two nodes gets its own line again.
fn asks_two<W: Wait + Copy>(wait: W, alloc: Global) -> Outcome {
    let notes = Notes::new();
    let rt = Timed {
        wait,
        notes: &notes,
    };
    let mut coming = Vec::new(alloc);
    coming.push(coming_answer(alloc, 30, node_id(3))?)?;
    let desk = Desk::of(alloc, &notes, coming, 100);
    let mut link = link_at(rt, alloc, client(), desk, None);
    let third = Actor::Node(node_id(3));
    check_row(link.send(third, parcel(alloc, b"one")?).is_ok(), 1)?;
    check_row(link.send(node(), parcel(alloc, b"other")?).is_ok(), 2)?;
    check_row(matches!(link.receive(), Ok(Post::Parcel(_))), 3)?;
    ends(&mut link, 4)?;
    check_row(notes.has_puts_to(&[3, 1, 1, 3, 1]), 5)?;
    check_row(notes.has_puts_at(&[0, 0, 20, 20, 60]), 6)
}

#[test]
fn two_nodes(rt: HostRuntime) -> Outcome {
    asks_two(rt, rt.alloc())
}

/// If the clock can't be read, no time passes.
fn has_no_time<W: Wait + Copy>(wait: W, alloc: Global) -> Outcome {
    let notes = Notes::new();
    notes.let_read(false);
    let rt = Timed {
        wait,
        notes: &notes,
    };
    let desk = Desk::of(alloc, &notes, Vec::new(alloc), 5_000);
    let mut link = link_at(rt, alloc, client(), desk, None);
    check_row(link.send(node(), parcel(alloc, b"ask")?).is_ok(), 1)?;
    ends(&mut link, 2)?;
    check_row(notes.has_puts_at(&[0]), 3)
}

#[test]
fn a_clock_that_cannot_be_read(rt: HostRuntime) -> Outcome {
    has_no_time(rt, rt.alloc())
}

/// A node puts no line again. It looks for lines each time a 32nd later than the time before, and every 20 ms at rest.
/// Its first look is at once, the second after 50 microseconds. So there are 414 looks in 5 seconds.
fn rests<W: Wait + Copy>(wait: W, alloc: Global) -> Outcome {
    let notes = Notes::new();
    let rt = Timed {
        wait,
        notes: &notes,
    };
    let desk = Desk::of(alloc, &notes, Vec::new(alloc), 5_000);
    let mut link = link_at(rt, alloc, node(), desk, None);
    check_row(link.send(client(), parcel(alloc, b"answer")?).is_ok(), 1)?;
    ends(&mut link, 2)?;
    check_row(notes.has_puts_at(&[0]), 3)?;
    check_row(notes.takes() == 414, 4)
}

#[test]
fn a_node_at_rest(rt: HostRuntime) -> Outcome {
    rests(rt, rt.alloc())
}

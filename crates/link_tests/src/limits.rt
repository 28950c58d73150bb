//! When a client's link brings nudges: at its deadline, or when it is stopped.

use crate::desks::{Desk, Notes, Timed, coming_frame, parcel};
use crate::links::{brings, nudges};
use crate::places::{client, node};
use crate::repeats::{link_at, loses};
use line_link::Limit;
use lock_messages::Actor;
use lossy_link::Link;
use std::alloc::Global;
use std::sync::Wait;
use std::time::{Clock, Duration};
use test_outcomes::{Outcome, check_row, node_id};

/// A client that is stopped takes what has come, and then gets nudges of the nodes that it asked, in turn.
fn stops<W: Wait + Copy>(wait: W, alloc: Global) -> Outcome {
    let notes = Notes::new();
    let rt = Timed {
        wait,
        notes: &notes,
    };
    let mut coming = Vec::new(alloc);
    coming.push(coming_frame(alloc, 0, b"first")?)?;
    let desk = Desk::of(alloc, &notes, coming, 9_000);
    let limit = Limit::new(alloc)?;
    let mut link = link_at(rt, alloc, client(), desk, Some(limit.share()?));
    let fifth = Actor::Node(node_id(5));
    check_row(link.send(fifth, parcel(alloc, b"ask")?).is_ok(), 1)?;
    check_row(link.send(node(), parcel(alloc, b"ask")?).is_ok(), 2)?;
    limit.stop();
    brings(&mut link, b"first", 3)?;
    for round in 1..=9 {
        nudges(&mut link, node_id(1), 4)?;
        nudges(&mut link, node_id(5), 5)?;
        check_row(notes.is_at_micros(round * 100), 6)?;
    }
    check_row(notes.has_puts_to(&[5, 1]), 7)
}

#[test]
fn a_client_that_is_stopped(rt: HostRuntime) -> Outcome {
    stops(rt, rt.alloc())
}

/// At its deadline a client gets nudges. Without the deadline it waits on.
fn meets_deadline<L: Link, C: Clock>(
    link: &mut L,
    rt: &C,
    notes: &Notes,
    limit: &Limit,
) -> Outcome {
    limit.set_deadline(rt, Duration::from_millis(250));
    nudges(link, node_id(1), 2)?;
    check_row(notes.millis() == 250, 3)?;
    limit.clear_deadline();
    loses(link, node_id(1), 4)?;
    check_row(notes.millis() == 500, 5)?;
    limit.set_deadline(rt, Duration::ZERO);
    nudges(link, node_id(1), 6)
}

fn passes_deadline<W: Wait + Copy>(wait: W, alloc: Global) -> Outcome {
    let notes = Notes::new();
    let rt = Timed {
        wait,
        notes: &notes,
    };
    let desk = Desk::of(alloc, &notes, Vec::new(alloc), 9_000);
    let limit = Limit::new(alloc)?;
    let mut link = link_at(rt, alloc, client(), desk, Some(limit.share()?));
    check_row(link.send(node(), parcel(alloc, b"ask")?).is_ok(), 1)?;
    let clock = Timed {
        wait,
        notes: &notes,
    };
    meets_deadline(&mut link, &clock, &notes, &limit)
}

#[test]
fn a_deadline(rt: HostRuntime) -> Outcome {
    passes_deadline(rt, rt.alloc())
}

/// When a limit is over, row by row.
fn is_over<W: Wait + Copy>(wait: W, alloc: Global) -> Outcome {
    let notes = Notes::new();
    let rt = Timed {
        wait,
        notes: &notes,
    };
    let limit = Limit::new(alloc)?;
    let other = limit.share()?;
    check_row(!limit.is_over(&rt) && !limit.is_stopped(), 1)?;
    other.stop();
    check_row(limit.is_over(&rt) && limit.is_stopped(), 2)?;
    limit.ignore_stop();
    check_row(!other.is_over(&rt) && other.is_stopped(), 3)?;
    other.set_deadline(&rt, Duration::ZERO);
    check_row(limit.is_over(&rt), 4)?;
    notes.let_read(false);
    check_row(!limit.is_over(&rt), 5)?;
    other.set_deadline(&rt, Duration::ZERO);
    notes.let_read(true);
    check_row(!limit.is_over(&rt), 6)?;
    other.set_deadline(&rt, Duration::MAX);
    check_row(!limit.is_over(&rt), 7)
}

#[test]
fn a_limit_by_itself(rt: HostRuntime) -> Outcome {
    is_over(rt, rt.alloc())
}

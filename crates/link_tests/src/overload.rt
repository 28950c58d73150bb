//! A node that gets more than it can do, and a client that is patient with it.

use crate::desks::{Coming, Desk, Notes, Timed, parcel};
use crate::links::brings;
use crate::places::{client, line_for_node, node, secret};
use crate::repeats::{ends, link_at, loses};
use bytes::Bytes;
use line_link::Limit;
use lock_messages::{Attempt, ClientId, Message, encode};
use lossy_link::Link;
use std::alloc::Global;
use std::sync::Wait;
use test_outcomes::{Failure, Outcome, check_row, node_id};

/// A release of an attempt that comes at a time in milliseconds.
struct Row {
    at: u64,
    client: u32,
    attempt: u64,
}

/// Two clients release attempts at once, the first one also an attempt that is over, twice. It does so again when nothing
/// waits.
const ROWS: [Row; 7] = [
    Row {
        at: 0,
        client: 1,
        attempt: 1,
    },
    Row {
        at: 0,
        client: 2,
        attempt: 1,
    },
    Row {
        at: 0,
        client: 1,
        attempt: 2,
    },
    Row {
        at: 0,
        client: 1,
        attempt: 1,
    },
    Row {
        at: 0,
        client: 1,
        attempt: 2,
    },
    Row {
        at: 0,
        client: 1,
        attempt: 1,
    },
    Row {
        at: 30,
        client: 1,
        attempt: 1,
    },
];

/// What comes of them, by the places of the rows, and whether more has come then.
const BROUGHT: [(usize, bool); 4] = [(1, true), (2, true), (4, false), (6, false)];

/// The frame by which the client of a row releases its attempt at n1.
fn frame_of(alloc: Global, row: &Row) -> Result<Bytes, Failure> {
    let (Some(client), Some(attempt)) = (ClientId::of(row.client), Attempt::of(row.attempt)) else {
        return Err(Failure::NoAnswer(0));
    };
    let message = Message::Release(node_id(1), client, attempt);
    encode(alloc, &message).map_err(|_| Failure::Memory)
}

/// The line of a row.
fn coming(alloc: Global, row: &Row) -> Result<Coming, Failure> {
    let frame = frame_of(alloc, row)?;
    let mut line = line_for_node(alloc, &secret(), frame.as_slice())?;
    let _ = line.pop();
    Ok(Coming { at: row.at, line })
}

/// The lines of all rows.
fn all_coming(alloc: Global) -> Result<Vec<Coming>, Failure> {
    let mut lines = Vec::new(alloc);
    for row in &ROWS {
        lines.push(coming(alloc, row)?)?;
    }
    Ok(lines)
}

/// Whether the link brings the frame of the row at this place.
fn brings_row<L: Link>(link: &mut L, alloc: Global, place: usize) -> Outcome {
    let Some(row) = ROWS.get(place) else {
        return Err(Failure::Wrong(place));
    };
    let frame = frame_of(alloc, row)?;
    brings(link, frame.as_slice(), place)
}

/// Whether the link brings what is to come of all rows, and nothing else.
fn brings_all<L: Link>(link: &mut L, alloc: Global) -> Outcome {
    check_row(!link.has_more(), 0)?;
    for (place, has_more) in &BROUGHT {
        brings_row(link, alloc, *place)?;
        check_row(link.has_more() == *has_more, *place)?;
    }
    ends(link, 9)
}

/// A message of an attempt is dropped if one of a later attempt of the same client waits. After nothing has waited it is
/// brought again.
fn drops_what_is_over<W: Wait + Copy>(wait: W, alloc: Global) -> Outcome {
    let notes = Notes::new();
    let rt = Timed {
        wait,
        notes: &notes,
    };
    let desk = Desk::of(alloc, &notes, all_coming(alloc)?, 100);
    let mut link = link_at(rt, alloc, node(), desk, None);
    brings_all(&mut link, alloc)
}

#[test]
fn attempts_that_are_over(rt: HostRuntime) -> Outcome {
    drops_what_is_over(rt, rt.alloc())
}

/// When the line of a patient client is put: each time twice as late, and at last each second.
const PUTS: [u64; 13] = [
    0, 20, 60, 140, 300, 620, 1_260, 2_260, 3_260, 4_260, 5_260, 6_260, 7_260,
];

/// A client that is 16 times as patient takes the node for gone after 8 seconds. Its first sleep is 0.8 ms, each later one is
/// longer by a 32nd up to 160 ms, and it also wakes for each line that it puts. So it looks for lines 207 times.
fn is_patient<W: Wait + Copy>(wait: W, alloc: Global) -> Outcome {
    let notes = Notes::new();
    let rt = Timed {
        wait,
        notes: &notes,
    };
    let desk = Desk::of(alloc, &notes, Vec::new(alloc), 9_500);
    let limit = Limit::new(alloc)?;
    limit.set_times(16);
    let mut link = link_at(rt, alloc, client(), desk, Some(limit));
    check_row(link.send(node(), parcel(alloc, b"ask")?).is_ok(), 1)?;
    loses(&mut link, node_id(1), 2)?;
    check_row(notes.millis() == 8_000 && notes.has_puts_at(&PUTS), 3)?;
    check_row(notes.takes() == 207, 4)
}

#[test]
fn a_patient_client(rt: HostRuntime) -> Outcome {
    is_patient(rt, rt.alloc())
}

/// Once it is as patient as at first, the node is gone after half a second. Its first sleep is 0.05 ms, and its longest 10 ms.
fn is_hasty<W: Wait + Copy>(wait: W, alloc: Global) -> Outcome {
    let notes = Notes::new();
    let rt = Timed {
        wait,
        notes: &notes,
    };
    let desk = Desk::of(alloc, &notes, Vec::new(alloc), 9_500);
    let limit = Limit::new(alloc)?;
    limit.set_times(16);
    limit.set_times(1);
    let mut link = link_at(rt, alloc, client(), desk, Some(limit));
    check_row(link.send(node(), parcel(alloc, b"ask")?).is_ok(), 1)?;
    loses(&mut link, node_id(1), 2)?;
    check_row(notes.millis() == 500, 3)?;
    check_row(notes.takes() == 197, 4)
}

#[test]
fn a_client_that_got_in(rt: HostRuntime) -> Outcome {
    is_hasty(rt, rt.alloc())
}

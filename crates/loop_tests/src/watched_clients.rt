//! A client whose gate and record count with its book, and a client whose book or list of messages is full.

use crate::judging::Check;
use crate::records::Device;
use crate::runs::{ALONE, Row, Run, does, ends_as};
use crate::watches::Room;
use event_recorders::RunFault;
use std::alloc::Global;
use std::sync::Wait;
use test_outcomes::Outcome;
use test_support::in_row;

/// A client with one wish, for which nothing comes.
const READS: Run<'static> = Run {
    device: Device::Counted,
    wishes: "c1 read a",
    ..ALONE
};

const KEEPS_ONCE: Row = Row {
    run: READS,
    checks: &[Check::InTurn(1)],
    answer: Err((0, RunFault::TooFewNodes)),
};

/// The gate is called before the keep, and behind the Try.
#[test]
fn before_a_keep_of_a_client(rt: HostRuntime) -> Outcome {
    does(rt, rt.alloc(), &KEEPS_ONCE)
}

/// What c1 logs for which nothing comes.
const ASKS: &str = "\
rise c1 old
begin c1 read a, try c1, kept c1, sayto c1 n1
leave c1
";

/// Ends the test unless c1 with so much room logs so much, has sent its request where that is logged, and
/// ends by a full book (915), or, where all has room, since no nodes are left (912).
fn ends_full<R: Wait + Copy>(rt: R, alloc: Global, room: Room, logged: usize) -> Outcome {
    let run = Run { room, ..READS };
    let fault = if logged == 6 {
        RunFault::TooFewNodes
    } else {
        RunFault::Book
    };
    let checks = [
        Check::Begins(ASKS),
        Check::Lines(logged),
        Check::Sent(usize::from(logged >= 5)),
    ];
    let done = ends_as(rt, alloc, &run, &checks, Err((0, fault)));
    in_row(done, logged)
}

/// A book that has no room behind so many events of c1.
#[test]
fn a_client_in_a_full_book(rt: HostRuntime) -> Outcome {
    for events in 0..=6u32 {
        ends_full(rt, rt.alloc(), Room { events, says: 1 }, events as usize)?;
    }
    Ok(())
}

/// A list of messages that is full, in a book with room: c1 logs nothing more, also no Leave.
#[test]
fn a_client_under_a_full_list_of_messages(rt: HostRuntime) -> Outcome {
    let room = Room {
        events: 100,
        says: 0,
    };
    ends_full(rt, rt.alloc(), room, 4)
}

//! A node whose gate and record count with its book, and a node whose book or list of messages is full.

use crate::judging::Check;
use crate::records::Device;
use crate::runs::{NODE, Row, Run, does, ends_as};
use crate::watches::Room;
use event_recorders::RunFault;
use std::alloc::Global;
use std::sync::Wait;
use test_outcomes::Outcome;
use test_support::in_row;

/// c1 asks n1, gives up and releases, by the messages 1 and 2, and asks again, by message 3.
const KEEPS_THRICE: Row = Row {
    run: Run {
        device: Device::Counted,
        before: "\
rise c1 old
begin c1 read a, try c1, kept c1, sayto c1 n1
leave c1, sayto c1 n1
begin c1 read a, try c1, kept c1, sayto c1 n1
",
        posts: "1 request, 2 release, 3 request",
        ..NODE
    },
    checks: &[Check::InTurn(3)],
    answer: Ok(0),
};

/// The gate is called before the i-th keep, and behind the i-th Try.
#[test]
fn before_each_keep_of_a_node(rt: HostRuntime) -> Outcome {
    does(rt, rt.alloc(), &KEEPS_THRICE)
}

/// c1 asks n1.
const ASKED: Run<'static> = Run {
    device: Device::Counted,
    before: "\
rise c1 old
begin c1 read a, try c1, kept c1, sayto c1 n1
",
    posts: "1 request",
    ..NODE
};

/// What n1 then logs.
const TURN: &str = "\
rise n1 old
take n1 1, try n1, kept n1, say n1
";

/// Ends the test unless n1 with so much room logs so much of a turn, behind the five lines of c1, and ends by a
/// full book (915) or, where all has room, without a fault. It tells the clients that it is gone.
fn ends_full<R: Wait + Copy>(rt: R, alloc: Global, room: Room, logged: usize) -> Outcome {
    let run = Run { room, ..ASKED };
    let (sent, answer) = if logged == 5 {
        ("2 grant", Ok(0))
    } else {
        ("gone", Err((0, RunFault::Book)))
    };
    let checks = [
        Check::Begins(TURN),
        Check::Lines(logged.saturating_add(5)),
        Check::Sends(sent),
    ];
    in_row(ends_as(rt, alloc, &run, &checks, answer), logged)
}

/// A book that has no room behind so many events of n1.
#[test]
fn a_node_in_a_full_book(rt: HostRuntime) -> Outcome {
    for events in 0..=5u32 {
        ends_full(rt, rt.alloc(), Room { events, says: 1 }, events as usize)?;
    }
    Ok(())
}

/// A list of messages that is full, in a book with room: nothing is said.
#[test]
fn a_node_under_a_full_list_of_messages(rt: HostRuntime) -> Outcome {
    let room = Room {
        events: 100,
        says: 0,
    };
    ends_full(rt, rt.alloc(), room, 4)
}

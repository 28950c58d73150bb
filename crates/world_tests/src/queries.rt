// What is asked of a world: who is inside, who waits and who holds, what is kept, and what was sent.

use crate::rows::{Deed, Note, Who};
use crate::sights::Sight;
use crate::steps::{Step, played_by};
use lock_messages::Mode;
use lock_model::Problem;
use std::alloc::Global;
use test_outcomes::Outcome;
use test_support::ballots_of;
use world_model::Age;

/// The record of n1 below: c2 and c1 hold `a` as readers, c3 waits for it as a writer.
const KEPT: [u8; 76] = [
    0x01, 0x01, 0x00, 0x03, //
    0x00, 0x00, 0x00, 0x02, 0x00, 0x00, 0x00, 0x00, 0x00, 0x00, 0x00, 0x00, 0x02, 0x00, 0x00, 0x00,
    0x00, 0x00, 0x00, 0x00, 0x01, 0x00, 0x01, 0x61, //
    0x00, 0x00, 0x00, 0x01, 0x00, 0x00, 0x00, 0x00, 0x00, 0x00, 0x00, 0x00, 0x02, 0x00, 0x00, 0x00,
    0x00, 0x00, 0x00, 0x00, 0x01, 0x00, 0x01, 0x61, //
    0x00, 0x00, 0x00, 0x03, 0x00, 0x00, 0x00, 0x00, 0x00, 0x00, 0x00, 0x00, 0x01, 0x00, 0x00, 0x00,
    0x00, 0x00, 0x00, 0x00, 0x01, 0x01, 0x01, 0x61,
];

/// c2 and then c1 are inside `a`, and c3 waits.
const CROWDED: [Step; 9] = [
    Step::Now(Deed::Rise(Who::Node(1), Age::Old)),
    Step::Begins(2, Mode::Read),
    Step::Asks(2, 1, 1),
    Step::Begins(1, Mode::Read),
    Step::Asks(1, 1, 3),
    Step::Begins(3, Mode::Write),
    Step::Asks(3, 1, 5),
    Step::Now(Deed::Enter(2)),
    Step::Now(Deed::Enter(1)),
];

/// Plays a script in such a world, of n1 under problem 1 and of c1 to c3.
fn play_crowded(alloc: Global, script: &[Step]) -> Outcome {
    let ballots = ballots_of(&[1], 1, 1)?;
    played_by(alloc, ballots, Problem::First, 3, &[&CROWDED, script])
}

const INSIDE: [Step; 2] = [
    Step::See(Sight::Inside(b"a", &[(1, Mode::Read), (2, Mode::Read)])),
    Step::See(Sight::Inside(b"b", &[])),
];

#[test]
fn inside_in_client_order(rt: HostRuntime) -> Outcome {
    play_crowded(rt.alloc(), &INSIDE)
}

const HOLDING: [Step; 2] = [
    Step::See(Sight::Holding(1, b"a", &[(2, Mode::Read), (1, Mode::Read)])),
    Step::See(Sight::Holding(1, b"b", &[])),
];

#[test]
fn holding_in_entry_order(rt: HostRuntime) -> Outcome {
    play_crowded(rt.alloc(), &HOLDING)
}

const WAITING: [Step; 2] = [
    Step::See(Sight::Waiting(1, b"a", &[(3, Mode::Write)])),
    Step::See(Sight::Waiting(1, b"b", &[])),
];

#[test]
fn waiting_writer(rt: HostRuntime) -> Outcome {
    play_crowded(rt.alloc(), &WAITING)
}

const KEPT_BYTES: [Step; 2] = [
    Step::See(Sight::Keeps(Who::Node(1), &KEPT)),
    Step::See(Sight::Keeps(Who::Client(3), &[1, 0, 0, 0, 0, 0, 0, 0, 1])),
];

#[test]
fn kept_bytes_are_records(rt: HostRuntime) -> Outcome {
    play_crowded(rt.alloc(), &KEPT_BYTES)
}

const TICKETS: [Step; 3] = [
    Step::See(Sight::IsInside(1, Mode::Read)),
    Step::See(Sight::IsOutside(3)),
    Step::See(Sight::IsOutside(4)),
];

#[test]
fn tickets_of_those_inside(rt: HostRuntime) -> Outcome {
    play_crowded(rt.alloc(), &TICKETS)
}

const MESSAGES: [Step; 3] = [
    Step::See(Sight::Sent(6, Note::Busy(3, Mode::Write))),
    Step::See(Sight::Unsent(0)),
    Step::See(Sight::Unsent(7)),
];

#[test]
fn messages_by_number(rt: HostRuntime) -> Outcome {
    play_crowded(rt.alloc(), &MESSAGES)
}

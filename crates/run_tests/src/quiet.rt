// Runs without loss, and one in which all is lost.

use crate::gates::OpenGate;
use crate::rows::{Ends, PLAIN, Row, goes};
use event_recorders::RunFault;
use test_outcomes::Outcome;
use test_support::Device;

const ONE_WISH: Row<'static> = Row {
    wishes: &[b"c1 read a"],
    entered: 1,
    events: Some(36),
    ..PLAIN
};

#[test]
fn one_wish(rt: HostRuntime) -> Outcome {
    goes(rt, rt.alloc(), &ONE_WISH, &OpenGate)
}

const ONE_WISH_THAT_SOFTENS: Row<'static> = Row {
    wishes: &[b"c1 soften a"],
    entered: 1,
    events: Some(49),
    ..PLAIN
};

/// Beside what one wish logs, the Soften is logged, and said to two nodes: six events for each.
#[test]
fn one_wish_that_softens(rt: HostRuntime) -> Outcome {
    goes(rt, rt.alloc(), &ONE_WISH_THAT_SOFTENS, &OpenGate)
}

const A_LONG_NAME: Row<'static> = Row {
    wishes: &[b"c1 read abcdefghijklmnopqrstuvwxyz-01234"],
    ..ONE_WISH
};

/// The longest name of a resource: no actor ends for want of memory.
#[test]
fn a_long_name(rt: HostRuntime) -> Outcome {
    goes(rt, rt.alloc(), &A_LONG_NAME, &OpenGate)
}

const NO_WISH: Row<'static> = Row {
    events: Some(7),
    ..PLAIN
};

#[test]
fn no_wish(rt: HostRuntime) -> Outcome {
    goes(rt, rt.alloc(), &NO_WISH, &OpenGate)
}

const A_CLIENT_GIVES_UP: Row<'static> = Row {
    votes: &[1],
    read: 1,
    write: 1,
    clients: 1,
    wishes: &[b"c1 read a"],
    devices: &[Device::Memory],
    weather: (1, 1000, 0, 0),
    faults: &[Ends::Client(1, RunFault::GaveUp)],
    ..PLAIN
};

#[test]
fn a_client_gives_up(rt: HostRuntime) -> Outcome {
    goes(rt, rt.alloc(), &A_CLIENT_GIVES_UP, &OpenGate)
}

const TWO_CLIENTS_GIVE_UP: Row<'static> = Row {
    clients: 2,
    wishes: &[b"c2 read a", b"c1 read a"],
    faults: &[
        Ends::Client(1, RunFault::GaveUp),
        Ends::Client(2, RunFault::GaveUp),
    ],
    ..A_CLIENT_GIVES_UP
};

#[test]
fn two_clients_give_up(rt: HostRuntime) -> Outcome {
    goes(rt, rt.alloc(), &TWO_CLIENTS_GIVE_UP, &OpenGate)
}

const WISHES_IN_THEIR_ORDER: Row<'static> = Row {
    wishes: &[b"c1 read a", b"c2 write d", b"c1 write b", b"c1 read c"],
    entered: 4,
    lines: &[
        (
            "begin c1",
            "begin c1 read a\nbegin c1 write b\nbegin c1 read c\n",
        ),
        ("begin c2", "begin c2 write d\n"),
    ],
    ..PLAIN
};

#[test]
fn wishes_in_their_order(rt: HostRuntime) -> Outcome {
    goes(rt, rt.alloc(), &WISHES_IN_THEIR_ORDER, &OpenGate)
}

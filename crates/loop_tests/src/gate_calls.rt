//! How often a gate is called: before each keep of the actor, and inside for each Enter.

use crate::judging::Check;
use crate::records::Device;
use crate::runs::{BESIDE, NODE, Row, Run, does};
use event_recorders::RunFault;
use stable_record::Leaves;
use test_outcomes::Outcome;

/// c1 asks n1, gives up and releases, by the messages 1 and 2.
const NODE_FALLS: Row = Row {
    run: Run {
        device: Device::Faulty(2, Leaves::Old, 0),
        before: "\
rise c1 old
begin c1 read a, try c1, kept c1, sayto c1 n1
leave c1, sayto c1 n1
",
        posts: "1 request, 2 release, 2 release",
        ..NODE
    },
    checks: &[Check::Called("try n1"), Check::Calls(3, 0)],
    answer: Ok(0),
};

/// A node keeps the grant, fails to keep the release, and keeps it when it comes again.
#[test]
fn of_a_node(rt: HostRuntime) -> Outcome {
    does(rt, rt.alloc(), &NODE_FALLS)
}

const CLIENT_FALLS: Row = Row {
    run: Run {
        device: Device::Faulty(2, Leaves::Old, 0),
        wishes: "c1 read a, c1 read b",
        ..BESIDE
    },
    checks: &[Check::Called("try c1"), Check::Calls(3, 2)],
    answer: Ok(2),
};

/// A client keeps an attempt, fails to keep the next, keeps it the second time, and enters with both.
#[test]
fn of_a_client(rt: HostRuntime) -> Outcome {
    does(rt, rt.alloc(), &CLIENT_FALLS)
}

const ENTERS_ONCE: Row = Row {
    run: Run {
        wishes: "c1 read a, c1 write a",
        ..BESIDE
    },
    checks: &[Check::Called("try c1"), Check::Calls(2, 1)],
    answer: Err((1, RunFault::TooFewNodes)),
};

/// A client that has too few nodes for its second wish is inside for the first alone.
#[test]
fn of_a_client_that_enters_once(rt: HostRuntime) -> Outcome {
    does(rt, rt.alloc(), &ENTERS_ONCE)
}

const READS_TWICE: Row = Row {
    run: Run {
        wishes: "c1 read a, c1 read b",
        ..BESIDE
    },
    checks: &[Check::Modes(11)],
    answer: Ok(2),
};

/// A client that wishes to read is inside once for each Enter, as a reader.
#[test]
fn of_a_reader(rt: HostRuntime) -> Outcome {
    does(rt, rt.alloc(), &READS_TWICE)
}

// Two at the same time: inside a resource, and at their records.

use crate::gates::{InsideTogether, KeepTogether};
use crate::rows::{PLAIN, Row, goes};
use test_outcomes::{Outcome, check_row};
use test_support::Device;

const TWO_INSIDE: Row<'static> = Row {
    wishes: &[b"c1 read a", b"c2 read a"],
    entered: 2,
    ..PLAIN
};

#[test]
fn two_inside_at_once(rt: HostRuntime) -> Outcome {
    let gate = InsideTogether::of(rt);
    goes(rt, rt.alloc(), &TWO_INSIDE, &gate)?;
    check_row(gate.came() == (2, 0), 2)
}

const TWO_KEEPS: Row<'static> = Row {
    votes: &[1, 1],
    read: 1,
    clients: 2,
    wishes: &[b"c1 write a", b"c2 write b"],
    devices: &[Device::Memory; 2],
    entered: 2,
    ..PLAIN
};

#[test]
fn two_keeps_at_once(rt: HostRuntime) -> Outcome {
    let gate = KeepTogether::of(rt);
    goes(rt, rt.alloc(), &TWO_KEEPS, &gate)?;
    check_row(gate.came() == (true, 0), 2)
}

// Lines of own journals: no memory where one with bytes is read.

use crate::failures::{Failure, Outcome, check};
use bytes::Bytes;
use lock_messages::Actor;
use own_journals::{OwnLine, OwnLineFault, read_own_line};
use std::alloc::Global;
use test_outcomes::{client_id, node_id};

/// Whether the line is read as this one.
fn is_told(alloc: Global, line: &str, told: &OwnLine) -> Outcome {
    match read_own_line(alloc, line.as_bytes()) {
        Ok(read) => check(read == *told),
        Err(OwnLineFault::Memory) => Err(Failure::Memory),
        Err(OwnLineFault::NoLine) => Err(Failure::Wrong),
    }
}

#[test]
fn a_life_is_read(rt: HostRuntime) -> Outcome {
    let told = OwnLine::Life(Actor::Node(node_id(16)), Bytes::from_static(&[0, 255]));
    is_told(rt.alloc(), "life n16 00ff", &told)
}

#[test]
fn a_frame_is_read(rt: HostRuntime) -> Outcome {
    let told = OwnLine::Reads(Actor::Client(client_id(1)), Bytes::from_static(&[1, 2, 3]));
    is_told(rt.alloc(), "hear c1 010203", &told)
}

#[test]
fn a_life_is_read_after_what_was_cut_off(rt: HostRuntime) -> Outcome {
    let told = OwnLine::Life(Actor::Client(client_id(7)), Bytes::from_static(&[255]));
    is_told(rt.alloc(), "hear c7 01life c7 ff", &told)
}

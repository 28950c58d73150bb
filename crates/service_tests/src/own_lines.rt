// The lines of own journals.

use bytes::Bytes;
use event_lines::read_event;
use lock_messages::Actor;
use own_journals::{OwnLine, OwnLineFault, read_own_line};
use std::alloc::Global;
use test_outcomes::{Failure, Outcome, check, check_row, client_id, node_id};

/// Whether the line is read as this one.
fn is_read(alloc: Global, line: &str, told: &OwnLine) -> Outcome {
    match read_own_line(alloc, line.as_bytes()) {
        Ok(read) => check(read == *told),
        Err(OwnLineFault::Memory) => Err(Failure::Memory),
        Err(OwnLineFault::NoLine) => Err(Failure::Wrong(0)),
    }
}

#[test]
fn lives_and_frames(rt: HostRuntime) -> Outcome {
    let node = Actor::Node(node_id(16));
    let client = Actor::Client(client_id(1024));
    let bytes = Bytes::from_static(&[0, 10, 255]);
    is_read(
        rt.alloc(),
        "life n16 000aff",
        &OwnLine::Life(node, bytes.clone()?),
    )?;
    is_read(
        rt.alloc(),
        "life c1024 000AFF",
        &OwnLine::Life(client, bytes.clone()?),
    )?;
    is_read(
        rt.alloc(),
        "life n16 ",
        &OwnLine::Life(node, Bytes::from_static(&[])),
    )?;
    is_read(
        rt.alloc(),
        "take n16 000aff",
        &OwnLine::Reads(node, bytes.clone()?),
    )?;
    is_read(
        rt.alloc(),
        "hear c1024 000aff",
        &OwnLine::Reads(client, bytes),
    )
}

/// What a process left of a line when it died, and the next life right after it.
const CUT: [&str; 9] = [
    "xlife n16 000aff",
    "kept n16life n16 000aff",
    "take n16 010life n16 000aff",
    "life n16 0000life n16 000aff",
    "lifelife n16 000aff",
    "lifexlife n16 000aff",
    " life n16 000aff",
    "begin c1 read life n16 000aff",
    "life n1 00 life n2 00life n16 000aff",
];

#[test]
fn lives_after_what_was_cut_off(rt: HostRuntime) -> Outcome {
    let found = Bytes::from_static(&[0, 10, 255]);
    let told = OwnLine::Life(Actor::Node(node_id(16)), found);
    for line in &CUT {
        is_read(rt.alloc(), line, &told)?;
    }
    Ok(())
}

/// Lines of events that read no message.
const EVENTS: [&str; 12] = [
    "begin c1 read a",
    "begin c1024 write a b8",
    "try n1",
    "kept c4",
    "sayto c1 n2",
    "say n3",
    "enter c1",
    "leave c1",
    "soften c1",
    "fall n2",
    "rise n1 old",
    "switch n1 2",
];

#[test]
fn other_events(rt: HostRuntime) -> Outcome {
    for line in &EVENTS {
        let Ok(event) = read_event(line.as_bytes()) else {
            return Err(Failure::Wrong(0));
        };
        is_read(rt.alloc(), line, &OwnLine::Does(event))?;
    }
    Ok(())
}

/// Lines of no own journal.
const NO_LINES: [&str; 29] = [
    "",
    "life",
    "life n1",
    "life n1 0",
    "life n1 0g",
    "life n1 00 00",
    "life  n1 00",
    "life n17 00",
    "life c1025 00",
    "life n01 00",
    "life 00 n1",
    "Life n1 00",
    "take n1",
    "take n1 1",
    "take n1 1048576",
    "take c1 00",
    "hear n1 00",
    "hear c1 -0",
    "takes n1 00",
    "rise n1 00",
    "inside a",
    "say n1 00",
    "kept n1life",
    "kept n1life n1",
    "kept n1life n1 0",
    "kept n1life n17 00",
    "kept n1life n1 00 ",
    "kept n1lif n1 00",
    "kept n1lifes n1 00",
];

#[test]
fn no_lines(rt: HostRuntime) -> Outcome {
    for (row, line) in NO_LINES.iter().enumerate() {
        let right = match read_own_line(rt.alloc(), line.as_bytes()) {
            Ok(_) => false,
            Err(OwnLineFault::NoLine) => true,
            Err(OwnLineFault::Memory) => return Err(Failure::Memory),
        };
        check_row(right, row)?;
    }
    Ok(())
}

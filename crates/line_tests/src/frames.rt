//! Lines that other programs would write too, and that are read back.

use frame_lines::{Inlet, Secret, read_frame, write_frame};
use lock_messages::{Actor, ClientId, NodeId};
use std::alloc::Global;
use test_outcomes::{Failure, Outcome, check_row};

/// c1 asks n1 to write `a`.
pub(crate) const FRAME: [u8; 18] = [1, 1, 1, 0, 0, 0, 1, 0, 0, 0, 0, 0, 0, 0, 1, 1, 1, 97];

/// The secret of the bytes from 0 to 31.
pub(crate) fn secret() -> Secret {
    let mut key = [0; 32];
    for (at, byte) in key.iter_mut().enumerate() {
        *byte = at as u8;
    }
    Secret::of(&key)
}

/// The lines of that frame for four actors, as another implementation of HMAC writes their tags.
const LINES: [(u32, bool, &str); 4] = [
    (
        1,
        true,
        "n1 010101000000010000000000000001010161 1674967c8a0990eb",
    ),
    (
        16,
        true,
        "n16 010101000000010000000000000001010161 7968bc93ca29dc18",
    ),
    (
        1,
        false,
        "c1 010101000000010000000000000001010161 53ad18abfe310ec0",
    ),
    (
        1024,
        false,
        "c1024 010101000000010000000000000001010161 b8792f89f48c5ecc",
    ),
];

/// The node or the client with this number.
fn actor(number: u32, is_node: bool) -> Result<Actor, Failure> {
    if !is_node {
        let client = ClientId::of(number).ok_or(Failure::Wrong(0))?;
        return Ok(Actor::Client(client));
    }
    let Ok(number) = u8::try_from(number) else {
        return Err(Failure::Wrong(0));
    };
    let node = NodeId::of(number).ok_or(Failure::Wrong(0))?;
    Ok(Actor::Node(node))
}

/// Fails unless this is the frame's line for the actor, and the line is read as the frame.
fn is_line(alloc: Global, to: Actor, frame: &[u8], expected: &str) -> Outcome {
    let line = write_frame(alloc, &secret(), to, frame)?;
    check_row(line.as_str().strip_suffix('\n') == Some(expected), 1)?;
    let mut inlet = Inlet::of(alloc, secret(), to);
    let Some(read) = inlet.accept(expected.as_bytes())? else {
        return Err(Failure::Wrong(2));
    };
    check_row(read.as_slice() == frame && inlet.dropped() == 0, 3)
}

#[test]
fn lines_of_a_frame(rt: HostRuntime) -> Outcome {
    for (number, is_node, expected) in LINES {
        is_line(rt.alloc(), actor(number, is_node)?, &FRAME, expected)?;
    }
    Ok(())
}

/// A frame without bytes has a line too.
#[test]
fn no_bytes(rt: HostRuntime) -> Outcome {
    is_line(rt.alloc(), actor(1, true)?, &[], "n1  312f23988c0e87f1")
}

/// Each byte comes back.
#[test]
fn each_byte(rt: HostRuntime) -> Outcome {
    let alloc = rt.alloc();
    let mut frame = Vec::new(alloc);
    for byte in 0..=255 {
        frame.push(byte)?;
    }
    let line = write_frame(alloc, &secret(), actor(2, false)?, frame.as_slice())?;
    let Some(text) = line.as_str().strip_suffix('\n') else {
        return Err(Failure::Wrong(1));
    };
    let read = read_frame(alloc, &secret(), actor(2, false)?, text.as_bytes())?;
    check_row(
        read.is_some_and(|read| read.as_slice() == frame.as_slice()),
        2,
    )
}

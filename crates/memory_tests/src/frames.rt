// Frames: `encode` answers 111.

use crate::failures::{Kind, Outcome, check, message};
use lock_messages::{Mode, decode, encode};
use std::alloc::Global;

/// A reader's ticket, or what is said of it.
fn encodes(alloc: Global, kind: Kind, number: u32) -> Outcome {
    let message = message(kind, number, Mode::Read)?;
    let frame = encode(alloc, &message)?;
    check(decode(&frame) == Ok(message))
}

#[test]
fn encode_a_ticket(rt: HostRuntime) -> Outcome {
    encodes(rt.alloc(), Kind::Request, 1)
}

#[test]
fn encode_an_attempt(rt: HostRuntime) -> Outcome {
    encodes(rt.alloc(), Kind::Release, 2)
}

#[test]
fn encode_a_softening(rt: HostRuntime) -> Outcome {
    encodes(rt.alloc(), Kind::Soften, 2)?;
    encodes(rt.alloc(), Kind::Softened, 2)
}

//! Lines that are not the line of a frame for the actor under the secret: they are dropped and counted.

use crate::frames::{FRAME, secret};
use frame_lines::{Inlet, Secret, write_frame};
use lock_messages::Actor;
use std::alloc::Global;
use test_outcomes::{Failure, Outcome, check_row, client_id, node_id};

/// n1.
fn own() -> Actor {
    Actor::Node(node_id(1))
}

/// The line of the frame for an actor under a secret, without its line feed.
fn line(alloc: Global, secret: &Secret, to: Actor) -> Result<Vec<u8>, Failure> {
    let mut text = Vec::from_slice(alloc, write_frame(alloc, secret, to, &FRAME)?.as_bytes())?;
    text.pop();
    Ok(text)
}

/// Fails unless the inlet of n1 drops the line, counts it, and then accepts a line of its own.
fn drops(alloc: Global, text: &[u8], row: usize) -> Outcome {
    let mut inlet = Inlet::of(alloc, secret(), own());
    check_row(inlet.accept(text)?.is_none() && inlet.dropped() == 1, row)?;
    let own = line(alloc, &secret(), own())?;
    check_row(
        inlet.accept(own.as_slice())?.is_some() && inlet.dropped() == 1,
        row,
    )
}

/// Each byte is replaced by some others.
#[test]
fn damaged(rt: HostRuntime) -> Outcome {
    let alloc = rt.alloc();
    let text = line(alloc, &secret(), own())?;
    for at in 0..text.len() {
        for other in *b" 0Aan\n\x00\xff" {
            let mut damaged = text.clone()?;
            if damaged[at] != other {
                damaged[at] = other;
                drops(alloc, damaged.as_slice(), 1)?;
            }
        }
    }
    Ok(())
}

/// The line is cut at each place. Either part comes alone, the two come in the other order, or one comes twice.
#[test]
fn torn(rt: HostRuntime) -> Outcome {
    let alloc = rt.alloc();
    let text = line(alloc, &secret(), own())?;
    for at in 1..text.len() {
        drops(alloc, &text[..at], 1)?;
        drops(alloc, &text[at..], 2)?;
        let mut turned = Vec::from_slice(alloc, &text[at..])?;
        turned.extend_from_slice(&text[..at])?;
        drops(alloc, turned.as_slice(), 3)?;
        let mut doubled = text.clone()?;
        doubled.extend_from_slice(&text[at..])?;
        drops(alloc, doubled.as_slice(), 4)?;
    }
    Ok(())
}

#[test]
fn for_others(rt: HostRuntime) -> Outcome {
    let alloc = rt.alloc();
    for number in 2..=16 {
        let text = line(alloc, &secret(), Actor::Node(node_id(number)))?;
        drops(alloc, text.as_slice(), 1)?;
    }
    let text = line(alloc, &secret(), Actor::Client(client_id(1)))?;
    drops(alloc, text.as_slice(), 2)
}

/// The name of another actor is put in the place of one's own. The tag differs.
#[test]
fn sent_on(rt: HostRuntime) -> Outcome {
    let alloc = rt.alloc();
    let mut text = line(alloc, &secret(), Actor::Node(node_id(2)))?;
    let Some(number) = text.get_mut(1) else {
        return Err(Failure::Wrong(2));
    };
    *number = b'1';
    drops(alloc, text.as_slice(), 1)
}

#[test]
fn of_another_service(rt: HostRuntime) -> Outcome {
    let alloc = rt.alloc();
    for key in [b"".as_slice(), b"another", &[0; 32], &[255; 100]] {
        let text = line(alloc, &Secret::of(key), own())?;
        drops(alloc, text.as_slice(), 1)?;
    }
    Ok(())
}

/// Digits have to be small letters.
#[test]
fn in_capitals(rt: HostRuntime) -> Outcome {
    let alloc = rt.alloc();
    let text = b"n1 010101000000010000000000000001010161 1674967C8A0990EB";
    drops(alloc, text, 1)
}

/// Lines that nobody writes.
const NOISE: [&[u8]; 9] = [
    b"",
    b" ",
    b"n1",
    b"n1 ",
    b"n1  ",
    b"n1 1674967c8a0990eb",
    b"n1 010101000000010000000000000001010161",
    b"n1 010101000000010000000000000001010161 1674967c8a0990eb\n",
    b"n1 01 010101000000010000000000000001010161 1674967c8a0990eb",
];

#[test]
fn noise(rt: HostRuntime) -> Outcome {
    for (row, text) in NOISE.iter().enumerate() {
        drops(rt.alloc(), text, row)?;
    }
    Ok(())
}

/// A line of a million digits.
#[test]
fn a_long_line(rt: HostRuntime) -> Outcome {
    let alloc = rt.alloc();
    let mut text = Vec::from_slice(alloc, b"n1 ")?;
    text.resize(1_000_000, b'0')?;
    text.extend_from_slice(b" 1674967c8a0990eb")?;
    drops(alloc, text.as_slice(), 1)
}

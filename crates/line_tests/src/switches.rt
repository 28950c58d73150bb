//! Lines that ask a node to take a problem, as other programs would write them too, and lines that are no such line.

use crate::frames::secret;
use frame_lines::{Secret, read_frame, write_frame};
use lock_messages::{Actor, NodeId};
use lock_model::Problem;
use std::alloc::Global;
use switch_lines::{read_switch, write_switch};
use test_outcomes::{Failure, Outcome, check_row, node_id};

/// The lines of four switches, as another implementation of HMAC writes their tags.
const LINES: [(u8, Problem, &str); 4] = [
    (1, Problem::First, "n1 switch 1 a305672719db6726"),
    (1, Problem::Second, "n1 switch 2 411f4000030b1dd2"),
    (16, Problem::First, "n16 switch 1 369343202d84f13d"),
    (16, Problem::Second, "n16 switch 2 85e5c294ca5cd692"),
];

/// Problem 2 for n1.
const LINE: &str = "n1 switch 2 411f4000030b1dd2";

#[test]
fn lines_of_switches(rt: HostRuntime) -> Outcome {
    for (row, (number, problem, expected)) in LINES.iter().enumerate() {
        let node = NodeId::of(*number).ok_or(Failure::Wrong(row))?;
        let line = write_switch(rt.alloc(), &secret(), node, *problem)?;
        check_row(line.as_str().strip_suffix('\n') == Some(*expected), row)?;
        let read = read_switch(rt.alloc(), &secret(), node, expected.as_bytes())?;
        check_row(read == Some(*problem), row)?;
    }
    Ok(())
}

/// Fails if n1 takes the line for a switch.
fn refuses(alloc: Global, text: &[u8], row: usize) -> Outcome {
    let read = read_switch(alloc, &secret(), node_id(1), text)?;
    check_row(read.is_none(), row)
}

/// Each byte is replaced by some others.
#[test]
fn damaged(rt: HostRuntime) -> Outcome {
    let alloc = rt.alloc();
    let text = Vec::from_slice(alloc, LINE.as_bytes())?;
    for at in 0..text.len() {
        for other in *b" 0129Aacns\n\x00\xff" {
            let mut damaged = text.clone()?;
            if damaged[at] != other {
                damaged[at] = other;
                refuses(alloc, damaged.as_slice(), at)?;
            }
        }
    }
    Ok(())
}

/// The line is cut at each place, and either part comes alone.
#[test]
fn torn(rt: HostRuntime) -> Outcome {
    let text = LINE.as_bytes();
    for at in 1..text.len() {
        refuses(rt.alloc(), &text[..at], at)?;
        refuses(rt.alloc(), &text[at..], at)?;
    }
    Ok(())
}

/// Lines that are not for n1, or that nobody writes. The last two have the tag of the frame `switch 2` for n1.
const OTHERS: [&str; 13] = [
    "",
    "n1 ",
    "n1 switch ",
    "n1 switch 2",
    "n1 switch 2 ",
    "n1 switch 2 411F4000030B1DD2",
    "n1 switch 1 411f4000030b1dd2",
    "n1 switch 3 411f4000030b1dd2",
    "n1 switch 2 411f4000030b1dd2\n",
    "n1 switch 2 85e5c294ca5cd692",
    "n16 switch 2 85e5c294ca5cd692",
    "n1 switch 2 9c305225c9667a64",
    "n1 7377697463682032 9c305225c9667a64",
];

#[test]
fn other_lines(rt: HostRuntime) -> Outcome {
    for (row, text) in OTHERS.iter().enumerate() {
        refuses(rt.alloc(), text.as_bytes(), row)?;
    }
    Ok(())
}

#[test]
fn of_another_service(rt: HostRuntime) -> Outcome {
    let alloc = rt.alloc();
    for (row, key) in [b"".as_slice(), b"another", &[0; 32]].iter().enumerate() {
        let line = write_switch(alloc, &Secret::of(key), node_id(1), Problem::Second)?;
        let text = line.as_str().strip_suffix('\n').unwrap_or("");
        refuses(alloc, text.as_bytes(), row)?;
    }
    Ok(())
}

/// The line of a switch, and that of a frame with the tag of the switch.
const NO_FRAMES: [&str; 2] = [LINE, "n1 7377697463682032 411f4000030b1dd2"];

/// n1.
fn own() -> Actor {
    Actor::Node(node_id(1))
}

/// Fails if n1 takes the line for one of a frame.
fn is_no_frame(alloc: Global, text: &[u8], row: usize) -> Outcome {
    let read = read_frame(alloc, &secret(), own(), text)?;
    check_row(read.is_none(), row)
}

/// A frame of the same bytes has another tag, and the tag of a switch is the tag of no frame.
#[test]
fn no_frame_has_its_tag(rt: HostRuntime) -> Outcome {
    let alloc = rt.alloc();
    let line = write_frame(alloc, &secret(), own(), b"switch 2")?;
    check_row(line.as_str() == "n1 7377697463682032 9c305225c9667a64\n", 1)?;
    for (row, text) in NO_FRAMES.iter().enumerate() {
        is_no_frame(alloc, text.as_bytes(), row)?;
    }
    Ok(())
}

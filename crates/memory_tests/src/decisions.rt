// The plain decision: its only error is want of memory.

use crate::failures::{Failure, Kind, Outcome, message};
use lock_messages::Mode;
use lock_model::{Entry, Problem, decide};
use std::alloc::Global;

/// What a client says to n1, and what is decided on it: whether the entries change, how many replies there
/// are, and the first of them, which is to that client.
#[derive(Clone, Copy)]
struct Row {
    said: Kind,
    client: u32,
    mode: Mode,
    changed: bool,
    replies: usize,
    reply: Kind,
}

/// Decides on what a row says; answers the entries after it.
fn decides(
    alloc: Global,
    problem: Problem,
    entries: &[Entry],
    row: &Row,
) -> Result<Vec<Entry>, Failure> {
    let said = message(row.said, row.client, row.mode)?;
    let reply = message(row.reply, row.client, row.mode)?;
    let decision = decide(alloc, problem, entries, &said)?;
    let replied = decision.replies.len() == row.replies && decision.replies.first() == Some(&reply);
    if replied && decision.changed == row.changed {
        Ok(decision.entries)
    } else {
        Err(Failure::Wrong)
    }
}

/// Decides on the rows one after the other.
fn decides_all(alloc: Global, problem: Problem, rows: &[Row]) -> Outcome {
    let mut entries = Vec::new(alloc);
    for row in rows {
        entries = decides(alloc, problem, &entries, row)?;
    }
    Ok(())
}

/// The same request twice is answered twice, and changes nothing more.
const REQUESTS: [Row; 3] = [
    Row {
        said: Kind::Request,
        client: 1,
        mode: Mode::Read,
        changed: true,
        replies: 1,
        reply: Kind::Grant,
    },
    Row {
        said: Kind::Request,
        client: 2,
        mode: Mode::Write,
        changed: true,
        replies: 1,
        reply: Kind::Busy,
    },
    Row {
        said: Kind::Request,
        client: 2,
        mode: Mode::Write,
        changed: false,
        replies: 1,
        reply: Kind::Busy,
    },
];

#[test]
fn decide_on_requests(rt: HostRuntime) -> Outcome {
    decides_all(rt.alloc(), Problem::First, &REQUESTS)
}

const RELEASES: [Row; 2] = [
    Row {
        said: Kind::Request,
        client: 1,
        mode: Mode::Read,
        changed: true,
        replies: 1,
        reply: Kind::Grant,
    },
    Row {
        said: Kind::Release,
        client: 1,
        mode: Mode::Read,
        changed: true,
        replies: 1,
        reply: Kind::Done,
    },
];

#[test]
fn decide_on_a_release(rt: HostRuntime) -> Outcome {
    decides_all(rt.alloc(), Problem::Second, &RELEASES)
}

/// A writer softens, which lets in a reader, and asks once more as the writer that it was.
const SOFTENS: [Row; 4] = [
    Row {
        said: Kind::Request,
        client: 1,
        mode: Mode::Write,
        changed: true,
        replies: 1,
        reply: Kind::Grant,
    },
    Row {
        said: Kind::Request,
        client: 2,
        mode: Mode::Read,
        changed: true,
        replies: 1,
        reply: Kind::Busy,
    },
    Row {
        said: Kind::Soften,
        client: 1,
        mode: Mode::Read,
        changed: true,
        replies: 2,
        reply: Kind::Softened,
    },
    Row {
        said: Kind::Request,
        client: 1,
        mode: Mode::Write,
        changed: false,
        replies: 1,
        reply: Kind::Softened,
    },
];

#[test]
fn decide_on_a_softening(rt: HostRuntime) -> Outcome {
    decides_all(rt.alloc(), Problem::First, &SOFTENS)
}

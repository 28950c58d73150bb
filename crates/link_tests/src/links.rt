//! Links of a node and a client over one directory.

use crate::desks::parcel;
use crate::places::{after, append, client, line_for_node, made, no_file, node, secret};
use crate::repeats::loses;
use frame_lines::Secret;
use line_link::{Carrier, Folder, Limit, LineLink, Pauses};
use lock_messages::{Actor, NodeId};
use lossy_link::{Link, Post};
use std::alloc::Global;
use std::sync::Wait;
use std::time::Clock;
use test_outcomes::{Failure, Outcome, check_row, node_id};

/// Short sleeps, and no line is put again while a test runs.
const PATIENT: Pauses = Pauses {
    least: 10,
    most: 100,
    again: 600_000_000,
    silence: 600_000_000,
    repeat: 600_000_000,
};

/// Little patience.
const HASTY: Pauses = Pauses {
    least: 10,
    most: 100,
    again: 300,
    silence: 1_000,
    repeat: 1_000,
};

/// The actor's inbox in the directory.
pub(crate) fn inbox(
    host: HostRuntime,
    path: &str,
    own: Actor,
) -> Result<Folder<HostRuntime>, Failure> {
    let alloc = host.alloc();
    no_file(Folder::open(host, alloc, path, own))
}

/// The link of an actor over a carrier, which puts no line again.
pub(crate) fn link<R: Wait + Clock + Copy, C: Carrier + Drop>(
    rt: R,
    alloc: Global,
    own: Actor,
    carrier: C,
    limit: Option<Limit>,
) -> LineLink<R, C> {
    let secrets = (secret(), secret());
    LineLink::over(rt, alloc, own, secrets, carrier, PATIENT, limit)
}

/// Whether the next post is a parcel with this frame.
pub(crate) fn brings<L: Link>(link: &mut L, frame: &[u8], row: usize) -> Outcome {
    match link.receive() {
        Ok(Post::Parcel(parcel)) => check_row(parcel.frame.as_slice() == frame, row),
        _ => Err(Failure::Wrong(row)),
    }
}

/// Whether the next post is a nudge of this node.
pub(crate) fn nudges<L: Link>(link: &mut L, node: NodeId, row: usize) -> Outcome {
    let came = link.receive();
    check_row(came == Ok(Post::Nudge(node)), row)
}

fn both_ways<W: Wait + Clock + Copy>(wait: W, rt: &HostRuntime, path: &str) -> Outcome {
    let alloc = rt.alloc();
    let limit = Limit::new(alloc)?;
    let from = inbox(*rt, path, client())?;
    let mut one = link(wait, alloc, client(), from, Some(limit.share()?));
    let mut other = link(wait, alloc, node(), inbox(*rt, path, node())?, None);
    for round in 1..=3 {
        check_row(one.send(node(), parcel(alloc, &[round, 1])?).is_ok(), 1)?;
        check_row(one.send(node(), parcel(alloc, &[round, 2])?).is_ok(), 2)?;
        brings(&mut other, &[round, 1], 3)?;
        brings(&mut other, &[round, 2], 4)?;
        check_row(other.send(client(), parcel(alloc, &[])?).is_ok(), 5)?;
        brings(&mut one, &[], 6)?;
    }
    check_row(one.dropped() == 0 && other.dropped() == 0, 7)?;
    limit.stop();
    nudges(&mut one, node_id(1), 8)
}

#[test]
fn frames_go_both_ways(rt: HostRuntime) -> Outcome {
    let path = made(&rt, "both_ways")?;
    after(&rt, path.as_str(), both_ways(rt, &rt, path.as_str()))
}

/// Noise, a line of another service and a torn line are dropped and counted, and what comes behind them is read.
fn drops<W: Wait + Clock + Copy>(wait: W, rt: &HostRuntime, path: &str) -> Outcome {
    let alloc = rt.alloc();
    let mut own = link(wait, alloc, node(), inbox(*rt, path, node())?, None);
    let foreign = line_for_node(alloc, &Secret::of(b"another"), b"x")?;
    let good = line_for_node(alloc, &secret(), b"good")?;
    append(rt, path, node(), b"noise\n\n")?;
    append(rt, path, node(), foreign.as_bytes())?;
    append(rt, path, node(), good.as_bytes().get(..9).unwrap_or(b""))?;
    append(rt, path, node(), good.as_bytes())?;
    append(rt, path, node(), good.as_bytes())?;
    brings(&mut own, b"good", 1)?;
    check_row(own.dropped() == 4, 2)
}

#[test]
fn what_is_no_line_is_dropped(rt: HostRuntime) -> Outcome {
    let path = made(&rt, "no_line")?;
    after(&rt, path.as_str(), drops(rt, &rt, path.as_str()))
}

/// A line without end is dropped, whatever its length, and what comes behind it is read.
fn passes_megabytes<W: Wait + Clock + Copy>(wait: W, rt: &HostRuntime, path: &str) -> Outcome {
    let alloc = rt.alloc();
    let mut own = link(wait, alloc, node(), inbox(*rt, path, node())?, None);
    let mut long = Vec::new(alloc);
    long.resize(500_000, b'n')?;
    for _ in 0..20 {
        append(rt, path, node(), long.as_slice())?;
    }
    append(rt, path, node(), b"\n")?;
    append(
        rt,
        path,
        node(),
        line_for_node(alloc, &secret(), b"good")?.as_bytes(),
    )?;
    brings(&mut own, b"good", 1)?;
    check_row(own.dropped() == 1, 2)
}

#[test]
fn a_line_of_megabytes(rt: HostRuntime) -> Outcome {
    let path = made(&rt, "long_line")?;
    after(&rt, path.as_str(), passes_megabytes(rt, &rt, path.as_str()))
}

/// Many lines of garbage are dropped and counted, and what comes behind them is read.
fn passes_garbage<W: Wait + Clock + Copy>(wait: W, rt: &HostRuntime, path: &str) -> Outcome {
    let alloc = rt.alloc();
    let mut own = link(wait, alloc, node(), inbox(*rt, path, node())?, None);
    let mut garbage = Vec::new(alloc);
    garbage.resize(200_000, b'\n')?;
    append(rt, path, node(), garbage.as_slice())?;
    let good = line_for_node(alloc, &secret(), b"good")?;
    append(rt, path, node(), good.as_bytes())?;
    brings(&mut own, b"good", 1)?;
    check_row(own.dropped() == 200_000, 2)
}

#[test]
fn an_inbox_of_garbage(rt: HostRuntime) -> Outcome {
    let path = made(&rt, "garbage")?;
    after(&rt, path.as_str(), passes_garbage(rt, &rt, path.as_str()))
}

/// What is sent to an actor without an inbox is lost. A client finds that the node is gone.
fn sends_nowhere<W: Wait + Clock + Copy>(wait: W, rt: &HostRuntime, path: &str) -> Outcome {
    let alloc = rt.alloc();
    let secrets = (secret(), secret());
    let own = inbox(*rt, path, client())?;
    let mut one = LineLink::over(wait, alloc, client(), secrets, own, HASTY, None);
    let nobody = Actor::Node(node_id(9));
    check_row(one.send(nobody, parcel(alloc, b"x")?).is_ok(), 1)?;
    check_row(one.tell_all(Post::Gone(node_id(1))).is_ok(), 2)?;
    loses(&mut one, node_id(9), 3)
}

#[test]
fn an_actor_without_an_inbox(rt: HostRuntime) -> Outcome {
    let path = made(&rt, "nowhere")?;
    after(&rt, path.as_str(), sends_nowhere(rt, &rt, path.as_str()))
}

//! Lines that ask a node to take a problem: who takes them, which are dropped, and where they are put.

use crate::links::{brings, inbox, link};
use crate::places::{after, append, client, made, node, secret};
use crate::repeats::ends;
use frame_lines::write_frame;
use line_link::{Carrier, Outbox, Taken, put_switch};
use lock_model::Problem;
use lossy_link::{Link, Post};
use std::alloc::Global;
use std::sync::Wait;
use std::time::Clock;
use test_outcomes::{Outcome, check_row, node_id};

/// Problems 1 and 2 for n1, with tags that another implementation of HMAC wrote.
const FIRST: &[u8] = b"n1 switch 1 40061c31bbf845df\n";

const SECOND: &[u8] = b"n1 switch 2 0722bf0d57e8c21d\n";

/// Whether the next post is a switch to this problem.
fn switches<L: Link>(link: &mut L, number: u8, row: usize) -> Outcome {
    let came = link.receive();
    check_row(came == Ok(Post::Switch(number)), row)
}

/// A node's link brings each switch, also one that comes again, and frames between them.
fn takes<W: Wait + Clock + Copy>(wait: W, rt: &HostRuntime, path: &str) -> Outcome {
    let alloc = rt.alloc();
    let mut own = link(wait, alloc, node(), inbox(*rt, path, node())?, None);
    let frame = write_frame(alloc, &secret(), node(), b"frame")?;
    append(rt, path, node(), SECOND)?;
    append(rt, path, node(), SECOND)?;
    append(rt, path, node(), frame.as_bytes())?;
    append(rt, path, node(), FIRST)?;
    append(rt, path, node(), SECOND)?;
    switches(&mut own, 2, 1)?;
    switches(&mut own, 2, 2)?;
    brings(&mut own, b"frame", 3)?;
    switches(&mut own, 1, 4)?;
    switches(&mut own, 2, 5)?;
    check_row(own.dropped() == 0, 6)
}

#[test]
fn a_node_takes_each_switch(rt: HostRuntime) -> Outcome {
    let path = made(&rt, "takes_switches")?;
    after(&rt, path.as_str(), takes(rt, &rt, path.as_str()))
}

/// Without a tag, with the tag of the other problem, of another node, of the frame `switch 2`, of another service, with
/// capitals, damaged, for another node, for a client, and with a word more.
const BAD: [&[u8]; 11] = [
    b"n1 switch 2\n",
    b"n1 switch 2 \n",
    b"n1 switch 2 40061c31bbf845df\n",
    b"n1 switch 2 38b6383e747bde5f\n",
    b"n1 switch 2 4e0a10749b7e01e7\n",
    b"n1 switch 2 755e381546de2ab7\n",
    b"n1 switch 2 0722BF0D57E8C21D\n",
    b"n1 switch 2 0722bf0d57e8c21e\n",
    b"n2 switch 2 38b6383e747bde5f\n",
    b"c1 switch 2 8ae930aecdf45aeb\n",
    b"n1 switch 2 0722bf0d57e8c21d now\n",
];

/// A bad line is dropped and counted, and the line after it is read.
fn drops<W: Wait + Clock + Copy>(wait: W, rt: &HostRuntime, path: &str) -> Outcome {
    let mut own = link(wait, rt.alloc(), node(), inbox(*rt, path, node())?, None);
    for (row, bad) in BAD.iter().enumerate() {
        append(rt, path, node(), bad)?;
        append(rt, path, node(), FIRST)?;
        switches(&mut own, 1, row)?;
        check_row(own.dropped() == row as u64 + 1, row)?;
    }
    Ok(())
}

#[test]
fn bad_lines_are_dropped(rt: HostRuntime) -> Outcome {
    let path = made(&rt, "bad_switches")?;
    after(&rt, path.as_str(), drops(rt, &rt, path.as_str()))
}

/// A client is never asked: its link drops such lines, whatever their tags.
fn ignores<W: Wait + Clock + Copy>(wait: W, rt: &HostRuntime, path: &str) -> Outcome {
    let alloc = rt.alloc();
    let mut own = link(wait, alloc, client(), inbox(*rt, path, client())?, None);
    let frame = write_frame(alloc, &secret(), client(), b"frame")?;
    append(rt, path, client(), SECOND)?;
    append(rt, path, client(), b"c1 switch 2 8ae930aecdf45aeb\n")?;
    append(rt, path, client(), frame.as_bytes())?;
    brings(&mut own, b"frame", 1)?;
    check_row(own.dropped() == 2, 2)
}

#[test]
fn a_client_takes_none(rt: HostRuntime) -> Outcome {
    let path = made(&rt, "client_switches")?;
    after(&rt, path.as_str(), ignores(rt, &rt, path.as_str()))
}

/// Whether the next line of a carrier is this one, given with its line feed.
fn has_line<C: Carrier>(alloc: Global, carrier: &mut C, expected: &[u8], row: usize) -> Outcome {
    let mut line = Vec::new(alloc);
    check_row(carrier.take(&mut line) == Taken::Line, row)?;
    line.push(b'\n')?;
    check_row(line.as_slice() == expected, row)
}

/// A switch is put as its one line, each time. An inbox that is not there is a failure, and nothing is ever taken.
fn puts(rt: &HostRuntime, path: &str) -> Outcome {
    let alloc = rt.alloc();
    let mut own = inbox(*rt, path, node())?;
    let mut outbox = Outbox::new(*rt, alloc, path)?;
    for (row, problem) in [Problem::Second, Problem::First, Problem::First]
        .iter()
        .enumerate()
    {
        let put = put_switch(alloc, &mut outbox, &secret(), node_id(1), *problem);
        check_row(put.is_ok() && !outbox.has_failed(), row)?;
    }
    has_line(alloc, &mut own, SECOND, 4)?;
    has_line(alloc, &mut own, FIRST, 5)?;
    has_line(alloc, &mut own, FIRST, 6)?;
    let mut line = Vec::new(alloc);
    check_row(own.take(&mut line) == Taken::Nothing, 7)?;
    check_row(outbox.take(&mut line) == Taken::Closed, 8)?;
    let put = put_switch(alloc, &mut outbox, &secret(), node_id(9), Problem::First);
    check_row(put.is_ok() && outbox.has_failed(), 9)
}

#[test]
fn a_switch_is_put(rt: HostRuntime) -> Outcome {
    let path = made(&rt, "puts_switches")?;
    after(&rt, path.as_str(), puts(&rt, path.as_str()))
}

/// A link over a carrier that takes nothing is closed.
fn closes<W: Wait + Clock + Copy>(wait: W, rt: &HostRuntime, path: &str) -> Outcome {
    let outbox = Outbox::new(*rt, rt.alloc(), path)?;
    let mut own = link(wait, rt.alloc(), node(), outbox, None);
    ends(&mut own, 1)
}

#[test]
fn an_outbox_brings_nothing(rt: HostRuntime) -> Outcome {
    let path = made(&rt, "outbox")?;
    after(&rt, path.as_str(), closes(rt, &rt, path.as_str()))
}

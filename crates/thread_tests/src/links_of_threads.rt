//! Parcels that threads send at the same time.

use crate::sending::{links_of, parcel};
use lock_messages::Actor;
use lossy_link::{ChannelLink, Link, Post};
use std::alloc::Global;
use std::sync::Wait;
use std::thread;
use std::thread::Threads;
use test_outcomes::{Outcome, check_answers, node_id};

/// How many parcels each of the two threads sends.
const EACH: u32 = 10_000;

/// Whether a link takes parcels of these numbers for the node.
fn takes_range<L: Link>(link: &mut L, from: u32, until: u32) -> bool {
    let mut takes = true;
    for number in from..until {
        takes &= link.send(Actor::Node(node_id(1)), parcel(number)).is_ok();
    }
    takes
}

/// Sends parcels of these numbers over a link, and drops it; `None` where one is refused, which nothing but want of
/// memory does.
fn send_range<R: Wait + Copy>(link: Option<ChannelLink<R>>, from: u32, until: u32) -> Option<()> {
    let mut link = link?;
    takes_range(&mut link, from, until).then_some(())
}

/// Two threads send at the same time, each over its link.
fn both_send<R: Threads + Wait + Copy + Send + Sync>(
    rt: R,
    first: Option<ChannelLink<R>>,
    second: Option<ChannelLink<R>>,
) -> Option<()> {
    let (one, two) = thread::join(
        &rt,
        move || send_range(first, 0, EACH),
        move || send_range(second, EACH, 2 * EACH),
    );
    one.and(two)
}

/// Counts a number; whether it is one of those that are sent.
fn count(counts: &mut [u8], number: u32) -> bool {
    let place = number as usize;
    let is_sent = place < counts.len();
    if is_sent {
        counts[place] = counts[place].saturating_add(1);
    }
    is_sent
}

/// Counts how often each number comes, until the link is closed; whether it is, and nothing but parcels came.
fn count_all<L: Link>(link: &mut L, counts: &mut [u8]) -> bool {
    let mut right = true;
    for _ in 0..3 * EACH {
        right &= match link.receive() {
            Ok(Post::Parcel(parcel)) => count(counts, parcel.number),
            Ok(_) => false,
            Err(_) => return right,
        };
    }
    false
}

fn is_each_one(counts: &[u8]) -> bool {
    let mut right = true;
    for count in counts {
        right &= *count == 1;
    }
    right
}

/// Whether each parcel that is sent comes over a link, and comes once.
fn each_comes_once<R: Wait + Copy>(alloc: Global, link: Option<ChannelLink<R>>) -> Option<bool> {
    let mut link = link?;
    let mut counts = vec![in alloc; 0u8; 2 * EACH as usize].ok()?;
    Some(count_all(&mut link, &mut counts) && is_each_one(&counts))
}

/// The same over the first of three links, while two threads send over the others.
fn comes_while_both_send<R: Threads + Wait + Copy + Send + Sync>(
    rt: R,
    alloc: Global,
) -> Option<bool> {
    let mut links = links_of(rt, alloc, 1, 2, (0, 0))?;
    let (second, first, of_node) = (links.pop(), links.pop(), links.pop());
    let (came, sent) = thread::join(
        &rt,
        move || each_comes_once(alloc, of_node),
        move || both_send(rt, first, second),
    );
    sent.and(came)
}

#[test]
fn each_parcel_arrives_once(rt: HostRuntime) -> Outcome {
    check_answers(&[comes_while_both_send(rt, rt.alloc())])
}

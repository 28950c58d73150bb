//! Links come to rest behind the last that moves: one that was waked, or one that ends while posts lie in its inbox.

use crate::rests::{Wanted, all_came, give_time, waiting};
use crate::sending::{brings, links_of, next_is, parcel, sends, taken};
use lock_messages::Actor;
use lossy_link::{ChannelLink, Link};
use std::alloc::Global;
use std::mem::drop;
use std::sync::Wait;
use std::thread;
use std::thread::Threads;
use std::time::Clock;
use test_outcomes::{Outcome, check_answer, client_id, node_id};

/// The places of the links of n2, c1 and c2, where two nodes and three clients are linked.
const SECOND_NODE: usize = 1;

const FIRST_CLIENT: usize = 2;

const SECOND_CLIENT: usize = 3;

/// Whether 7 wakes the link's actor, and nothing comes to it behind that; meanwhile it sends 9 to n1. `None` where that
/// is refused, which nothing but want of memory does.
fn moves_on<R: Wait + Clock + Copy>(clock: &R, link: Option<ChannelLink<R>>) -> Option<bool> {
    let mut link = link?;
    let woken = next_is(&mut link, 7);
    give_time(clock);
    let takes = link.send(Actor::Node(node_id(1)), parcel(9)).is_ok();
    let rests = brings(&mut link, &[]);
    takes.then_some(woken && rests)
}

/// Whether a link takes 7 for c2, once all others have had the time to rest, before it is dropped.
fn wakes_and_ends<R: Wait + Clock + Copy>(clock: &R, link: ChannelLink<R>) -> bool {
    let mut link = link;
    give_time(clock);
    link.send(Actor::Client(client_id(2)), parcel(7)).is_ok()
}

/// Whether what a client sends that was waked comes to n1, though the node that waked it has ended.
fn one_was_waked<R: Threads + Wait + Clock + Copy + Send + 'static>(
    rt: R,
    alloc: Global,
    wanted: Wanted,
) -> Option<bool> {
    let mut links = links_of(rt, alloc, 2, 3, (0, 0))?;
    let waked = taken(&mut links, SECOND_CLIENT);
    let second = taken(&mut links, SECOND_NODE)?;
    let threads = waiting(rt, alloc, links, wanted)?;
    let mover = thread::spawn(&rt, move || moves_on(&rt, waked)).ok()?;
    let woken = wakes_and_ends(&rt, second);
    let moved = mover.join(&rt);
    let came = all_came(&rt, threads, wanted.len());
    woken.then_some(moved? && came)
}

#[test]
fn who_was_waked_moves(rt: HostRuntime) -> Outcome {
    for row in 0..20 {
        check_answer(one_was_waked(rt, rt.alloc(), &[&[9], &[], &[]]), row)?;
    }
    Ok(())
}

/// Whether four actors come to rest once n2 has ended, the last that moves, in whose inbox two posts lie.
fn the_last_has_posts<R: Threads + Wait + Clock + Copy + Send + 'static>(
    rt: R,
    alloc: Global,
    wanted: Wanted,
) -> Option<bool> {
    let mut links = links_of(rt, alloc, 2, 3, (0, 0))?;
    let mut sent = sends(&mut links, FIRST_CLIENT, &Actor::Node(node_id(2)), 7);
    sent &= sends(&mut links, FIRST_CLIENT, &Actor::Node(node_id(2)), 8);
    let second = taken(&mut links, SECOND_NODE)?;
    let threads = waiting(rt, alloc, links, wanted)?;
    give_time(&rt);
    drop(second);
    sent.then_some(all_came(&rt, threads, wanted.len()))
}

#[test]
fn the_last_ends_with_posts_in_its_inbox(rt: HostRuntime) -> Outcome {
    for row in 0..20 {
        check_answer(
            the_last_has_posts(rt, rt.alloc(), &[&[], &[], &[], &[]]),
            row,
        )?;
    }
    Ok(())
}

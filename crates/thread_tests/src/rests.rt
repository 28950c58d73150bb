//! Links come to rest, and are closed, once every actor waits and nothing lies in an inbox.

use crate::sending::{brings, is_closed, links_of, parcel, sends, taken};
use lock_messages::Actor;
use lossy_link::{ChannelLink, Link, Post};
use std::alloc::Global;
use std::mem::drop;
use std::sync::Wait;
use std::thread;
use std::thread::{JoinHandle, Threads};
use std::time::{Clock, Duration};
use test_outcomes::{Outcome, check_answer, check_answers, client_id, node_id};

/// Gives actors the time to rest. What comes of a test doesn't hang on it.
pub(crate) fn give_time<C: Clock>(clock: &C) {
    thread::sleep(clock, Duration::from_millis(10));
}

/// What is to come to each of some actors until its link is closed, by numbers.
pub(crate) type Wanted = &'static [&'static [u32]];

/// Whether just these come over a link until it is closed, as it has to stay then.
fn rests_behind<L: Link>(link: &mut L, numbers: &[u32]) -> bool {
    let mut rests = brings(link, numbers);
    rests &= is_closed(link);
    rests &= is_closed(link);
    rests
}

/// Waits until the link is closed, and drops it; whether just what is wanted came.
fn awaited<R: Wait + Copy>(link: ChannelLink<R>, want: Option<&[u32]>) -> bool {
    let mut link = link;
    match want {
        Some(numbers) => rests_behind(&mut link, numbers),
        None => false,
    }
}

/// A thread for each link, which waits until the link is closed, and answers whether just what is wanted came.
pub(crate) fn waiting<R: Threads + Wait + Copy + Send + 'static>(
    rt: R,
    alloc: Global,
    links: Vec<ChannelLink<R>>,
    wanted: Wanted,
) -> Option<Vec<JoinHandle<bool>>> {
    let mut threads = Vec::new(alloc);
    for link in links {
        let want = wanted.get(threads.len()).copied();
        let thread = thread::spawn(&rt, move || awaited(link, want)).ok();
        if threads.push(thread?).is_err() {
            return None;
        }
    }
    Some(threads)
}

/// Whether just what is wanted came to each of those that waited, and whether they are so many.
pub(crate) fn all_came<R: Threads>(rt: &R, threads: Vec<JoinHandle<bool>>, count: usize) -> bool {
    let mut right = threads.len() == count;
    for thread in threads {
        right &= thread.join(rt);
    }
    right
}

/// All of the links wait; whether just what is wanted comes to their actors.
fn all_come<R: Threads + Wait + Copy + Send + 'static>(
    rt: R,
    alloc: Global,
    links: Vec<ChannelLink<R>>,
    wanted: Wanted,
) -> Option<bool> {
    let threads = waiting(rt, alloc, links, wanted)?;
    Some(all_came(&rt, threads, wanted.len()))
}

/// The places of the links of n1, n2, c1 and c3, where two nodes and three clients are linked.
const FIRST_NODE: usize = 0;

const SECOND_NODE: usize = 1;

const FIRST_CLIENT: usize = 2;

const LAST_CLIENT: usize = 4;

/// Whether just what is wanted comes to five actors that all wait from the start.
fn nobody_sends<R: Threads + Wait + Copy + Send + 'static>(
    rt: R,
    alloc: Global,
    wanted: Wanted,
) -> Option<bool> {
    let links = links_of(rt, alloc, 2, 3, (0, 0))?;
    all_come(rt, alloc, links, wanted)
}

#[test]
fn all_wait_from_the_start(rt: HostRuntime) -> Outcome {
    for row in 0..20 {
        check_answer(
            nobody_sends(rt, rt.alloc(), &[&[], &[], &[], &[], &[]]),
            row,
        )?;
    }
    Ok(())
}

/// Whether just what is wanted comes to five actors, of which c1 sends 7 to n2, and n1 sends 8 to c3, before all
/// wait.
fn two_send<R: Threads + Wait + Copy + Send + 'static>(
    rt: R,
    alloc: Global,
    late: u16,
    wanted: Wanted,
) -> Option<bool> {
    let mut links = links_of(rt, alloc, 2, 3, (0, late))?;
    let mut sent = sends(&mut links, FIRST_CLIENT, &Actor::Node(node_id(2)), 7);
    sent &= sends(&mut links, FIRST_NODE, &Actor::Client(client_id(3)), 8);
    let come = all_come(rt, alloc, links, wanted)?;
    sent.then_some(come)
}

#[test]
fn what_was_sent_comes_first(rt: HostRuntime) -> Outcome {
    for row in 0..20 {
        let come = two_send(rt, rt.alloc(), 0, &[&[], &[7], &[], &[], &[8]]);
        check_answer(come, row)?;
    }
    Ok(())
}

/// Whether a link takes what wakes others, once these have had the time to rest: a parcel for c2, and later that n2 is
/// gone.
fn wakes<C: Clock, L: Link>(clock: &C, link: &mut L) -> bool {
    give_time(clock);
    let mut takes = link.send(Actor::Client(client_id(2)), parcel(7)).is_ok();
    give_time(clock);
    takes &= link.tell_all(Post::Gone(node_id(2))).is_ok();
    takes
}

/// Whether just what n2 sends and tells, when all others wait, comes to them, and nothing to n2 itself.
fn second_wakes<R: Threads + Wait + Clock + Copy + Send + 'static>(
    rt: R,
    alloc: Global,
) -> Option<bool> {
    let mut links = links_of(rt, alloc, 2, 3, (0, 0))?;
    let mut second = taken(&mut links, SECOND_NODE)?;
    let threads = waiting(rt, alloc, links, &[&[], &[202], &[7, 202], &[202]])?;
    let woken = wakes(&rt, &mut second);
    let rests = awaited(second, Some(&[]));
    let came = all_came(&rt, threads, 4);
    woken.then_some(rests && came)
}

#[test]
fn one_wakes_those_that_wait(rt: HostRuntime) -> Outcome {
    check_answers(&[second_wakes(rt, rt.alloc())])
}

/// Whether four actors that wait are at rest, with nothing to come, once the fifth has ended.
fn last_ends<R: Threads + Wait + Clock + Copy + Send + 'static>(
    rt: R,
    alloc: Global,
) -> Option<bool> {
    let mut links = links_of(rt, alloc, 2, 3, (0, 0))?;
    let last = taken(&mut links, LAST_CLIENT)?;
    let threads = waiting(rt, alloc, links, &[&[], &[], &[], &[]])?;
    give_time(&rt);
    drop(last);
    Some(all_came(&rt, threads, 4))
}

#[test]
fn the_last_that_ends_closes_the_others(rt: HostRuntime) -> Outcome {
    check_answers(&[last_ends(rt, rt.alloc())])
}

/// Whether nothing comes to four actors, of which c1 sends to n2 before and after that has ended.
fn one_sends_to_the_ended<R: Threads + Wait + Copy + Send + 'static>(
    rt: R,
    alloc: Global,
) -> Option<bool> {
    let to = Actor::Node(node_id(2));
    let mut links = links_of(rt, alloc, 2, 3, (0, 0))?;
    let mut sent = sends(&mut links, FIRST_CLIENT, &to, 7);
    sent &= sends(&mut links, FIRST_CLIENT, &to, 8);
    drop(taken(&mut links, SECOND_NODE));
    sent &= sends(&mut links, FIRST_CLIENT - 1, &to, 9);
    let come = all_come(rt, alloc, links, &[&[], &[], &[], &[]])?;
    sent.then_some(come)
}

#[test]
fn posts_for_an_actor_that_ended_move_nobody(rt: HostRuntime) -> Outcome {
    check_answers(&[one_sends_to_the_ended(rt, rt.alloc())])
}

#[test]
fn a_held_parcel_moves_nobody(rt: HostRuntime) -> Outcome {
    let wanted: Wanted = &[&[], &[], &[102], &[], &[101]];
    check_answers(&[two_send(rt, rt.alloc(), 1_000, wanted)])
}

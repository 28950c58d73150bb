// Links: 903. After a refusal a link over a list has what it had, and knows of the refusal; of one over
// channels a part may have gone.

use crate::failures::{Failure, Outcome, check, refused};
use bytes::Bytes;
use lock_messages::{Actor, NodeId};
use lossy_link::{ChannelLink, Link, LinkFault, ListLink, Parcel, Post};
use std::alloc::Global;
use std::sync::Wait;
use test_outcomes::{client_id, node_id};
use test_support::weather;

fn parcel(number: u32) -> Parcel {
    Parcel {
        number,
        frame: Bytes::from_static(b"frame"),
    }
}

/// Whether a link over a list took what was given to it, as its list then has it.
fn took(link: &ListLink, given: Result<(), LinkFault>, before: usize) -> Outcome {
    let now = link.sent().len();
    match given {
        Ok(()) => check(now == before.saturating_add(1) && !link.was_refused()),
        Err(fault) => {
            check(now == before && link.was_refused())?;
            Err(fault.into())
        }
    }
}

fn sends_five(link: &mut ListLink) -> Outcome {
    for before in 0..5usize {
        let given = link.send(Actor::Node(node_id(1)), parcel(1));
        took(link, given, before)?;
    }
    Ok(())
}

#[test]
fn send_over_a_list(rt: HostRuntime) -> Outcome {
    sends_five(&mut ListLink::of(Vec::new(rt.alloc())))
}

#[test]
fn tell_all_over_a_list(rt: HostRuntime) -> Outcome {
    let post = Post::Nudge(node_id(1));
    let mut link = ListLink::of(Vec::new(rt.alloc()));
    let given = link.tell_all(post);
    took(&link, given, 0)
}

/// The links of one node and two clients, the node's first, under this weather.
fn links<R: Wait + Copy>(rt: R, alloc: Global, late: u16) -> Result<Vec<ChannelLink<R>>, Failure> {
    let weather = weather((1, 0, 0, late))?;
    let links = ChannelLink::all(rt, alloc, 1, 2, &weather)?;
    check(links.len() == 3)?;
    Ok(links)
}

#[test]
fn make_links_over_channels(rt: HostRuntime) -> Outcome {
    links(rt, rt.alloc(), 0)?;
    Ok(())
}

/// What a node gives to its link: a parcel to the second client, or to all that it is gone.
#[derive(Clone, Copy)]
enum Given {
    Parcel,
    Gone,
}

fn gives<L: Link>(of_node: &mut L, given: Given) -> Outcome {
    let (to, one) = (Actor::Client(client_id(2)), node_id(1));
    let came = match given {
        Given::Parcel => of_node.send(to, parcel(7)),
        Given::Gone => of_node.tell_all(Post::Gone(one)),
    };
    Ok(came?)
}

/// Whether the next post of a link is this one.
fn brings<L: Link>(link: &mut L, post: &Post) -> Outcome {
    check(link.receive()? == *post)
}

/// Gives to the first link, which is the node's; whether the last, which is the second client's, brings this.
fn passes<L: Link>(links: &mut [L], given: Given, post: &Post) -> Outcome {
    let [of_node, _, last] = links else {
        return Err(Failure::Wrong);
    };
    gives(of_node, given)?;
    brings(last, post)
}

#[test]
fn send_over_channels(rt: HostRuntime) -> Outcome {
    let mut links = links(rt, rt.alloc(), 0)?;
    passes(&mut links, Given::Parcel, &Post::Parcel(parcel(7)))
}

/// A late parcel is held, and its client is nudged.
#[test]
fn send_late_over_channels(rt: HostRuntime) -> Outcome {
    let nudge = Post::Nudge(node_id(1));
    let mut links = links(rt, rt.alloc(), 1_000)?;
    passes(&mut links, Given::Parcel, &nudge)
}

#[test]
fn tell_all_over_channels(rt: HostRuntime) -> Outcome {
    let gone = Post::Gone(node_id(1));
    let mut links = links(rt, rt.alloc(), 0)?;
    passes(&mut links, Given::Gone, &gone)
}

/// Tells all a few times, so that inboxes have to grow: how many posts were told, and how it ended.
fn tell_often<L: Link>(of_node: &mut L, node: NodeId) -> (usize, Outcome) {
    let mut told = 0usize;
    let mut ended = Ok(());
    for _ in 0..9 {
        match of_node.tell_all(Post::Gone(node)) {
            Ok(()) => told = told.saturating_add(2),
            // one request at most is refused, so the other client is told
            Err(fault) => {
                told = told.saturating_add(1);
                ended = Err(fault.into());
            }
        }
    }
    (told, ended)
}

/// How many posts come over a link until it is closed.
fn posts_over<L: Link>(link: &mut L) -> Result<usize, Failure> {
    for count in 0..20usize {
        if link.receive().is_err() {
            return Ok(count);
        }
    }
    Err(Failure::Wrong)
}

/// Whether so many posts come over the links together until they are closed.
fn bring<L: Link>(links: &mut [L], told: usize) -> Outcome {
    let mut came = 0usize;
    for link in links {
        came = came.saturating_add(posts_over(link)?);
    }
    check(came == told)
}

/// Tells all over the last link, which is closed then; whether the others bring what was told.
fn passes_all<L: Link + Drop>(links: &mut Vec<L>, node: NodeId) -> Outcome {
    let Some(of_node) = links.pop() else {
        return Err(Failure::Wrong);
    };
    let mut of_node = of_node;
    let (told, ended) = tell_often(&mut of_node, node);
    drop(of_node);
    bring(links, told)?;
    ended
}

/// Behind an inbox that has no memory for a post the next client is told.
#[test]
fn tell_all_behind_a_refusal(rt: HostRuntime) -> Outcome {
    let one = node_id(1);
    let mut links = links(rt, rt.alloc(), 0)?;
    links.reverse();
    passes_all(&mut links, one)
}

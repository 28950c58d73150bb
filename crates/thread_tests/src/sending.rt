//! Links over channels, and what links are given and bring, by numbers.

use bytes::Bytes;
use lock_messages::Actor;
use lossy_link::{ChannelLink, Link, LinkFault, Parcel, Post, Weather};
use std::alloc::Global;
use std::sync::Wait;

pub(crate) fn parcel(number: u32) -> Parcel {
    Parcel {
        number,
        frame: Bytes::from_static(b"frame"),
    }
}

/// A post by a number: a parcel by its own, a nudge by 100 and its node, an end by 200 and its node, a switch
/// by 300 and its problem's number.
pub(crate) fn number_of(post: &Post) -> u32 {
    match post {
        Post::Parcel(parcel) => parcel.number,
        Post::Nudge(node) => 100 + u32::from(node.get()),
        Post::Gone(node) => 200 + u32::from(node.get()),
        Post::Switch(number) => 300 + u32::from(*number),
    }
}

/// Whether the next post over a link has this number.
pub(crate) fn next_is<L: Link>(link: &mut L, number: u32) -> bool {
    match link.receive() {
        Ok(post) => number_of(&post) == number,
        Err(_) => false,
    }
}

pub(crate) fn is_closed<L: Link>(link: &mut L) -> bool {
    match link.receive() {
        Ok(_) => false,
        Err(fault) => fault == LinkFault::Closed,
    }
}

/// Whether posts of just these numbers come over a link, in order, and then it is closed.
pub(crate) fn brings<L: Link>(link: &mut L, numbers: &[u32]) -> bool {
    let mut right = true;
    for number in numbers {
        right &= next_is(link, *number);
    }
    right & is_closed(link)
}

/// Whether the link at a place takes a parcel of this number for an actor.
pub(crate) fn sends<L: Link>(links: &mut [L], place: usize, to: &Actor, number: u32) -> bool {
    match links.get_mut(place) {
        Some(link) => link.send(*to, parcel(number)).is_ok(),
        None => false,
    }
}

/// Takes the link at a place out of some.
pub(crate) fn taken<L>(links: &mut Vec<L>, place: usize) -> Option<L> {
    if place < links.len() {
        Some(links.remove(place))
    } else {
        None
    }
}

/// The links of so many nodes and clients, nodes first, in a weather in which so many of a thousand parcels are lost,
/// and so many late.
pub(crate) fn links_of<R: Wait + Copy>(
    rt: R,
    alloc: Global,
    nodes: u8,
    clients: u16,
    (lost, late): (u16, u16),
) -> Option<Vec<ChannelLink<R>>> {
    let weather = Weather::of(1, lost, 0, late).ok()?;
    ChannelLink::all(rt, alloc, nodes, clients, &weather).ok()
}

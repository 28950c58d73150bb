//! Links over lists, and links over channels on one thread.

use crate::sending::{brings, links_of, next_is, number_of, parcel, sends, taken};
use lock_messages::Actor;
use lossy_link::{ChannelLink, Fate, Link, ListLink, Post, Sending, Weather};
use std::alloc::Global;
use std::mem::drop;
use std::sync::Wait;
use test_outcomes::{Outcome, check_answer, check_answers, client_id, node_id};

/// A post of each kind, and a switch to the greatest number.
fn one_of_each(alloc: Global) -> Option<Vec<Post>> {
    let mut posts = Vec::new(alloc);
    let mut all = posts.push(Post::Parcel(parcel(1))).is_ok();
    all &= posts.push(Post::Nudge(node_id(2))).is_ok();
    all &= posts.push(Post::Gone(node_id(3))).is_ok();
    all &= posts.push(Post::Switch(2)).is_ok();
    all &= posts.push(Post::Switch(255)).is_ok();
    if all { Some(posts) } else { None }
}

/// Whether a list gives its posts, and is closed behind them from then on.
fn gives_its_posts(alloc: Global) -> Option<bool> {
    let mut link = ListLink::of(one_of_each(alloc)?);
    Some(brings(&mut link, &[1, 102, 203, 302, 555]) && brings(&mut link, &[]))
}

#[test]
fn posts_of_a_list(rt: HostRuntime) -> Outcome {
    check_answers(&[gives_its_posts(rt.alloc())])
}

/// Sends, and where memory is refused sends again; whether nothing but the refusal was remembered then.
fn send_again(link: &mut ListLink, number: u32) -> Option<bool> {
    let before = link.sent().len();
    if link.send(Actor::Node(node_id(1)), parcel(number)).is_ok() {
        return Some(true);
    }
    if link.sent().len() != before || !link.was_refused() {
        return Some(false);
    }
    match link.send(Actor::Node(node_id(1)), parcel(number)) {
        Ok(()) => Some(true),
        Err(_) => None,
    }
}

fn number_given(sending: &Sending) -> u32 {
    match sending {
        Sending::Sent(_, parcel) => parcel.number,
        Sending::Told(post) => number_of(post),
    }
}

/// Whether just these were given to a link, by their numbers.
fn was_given(link: &ListLink, numbers: &[u32]) -> bool {
    let mut right = link.sent().len() == numbers.len();
    for (sending, number) in link.sent().iter().zip(numbers.iter()) {
        right &= number_given(sending) == *number;
    }
    right
}

/// Whether a link over lists remembers what it is given, also where memory was refused in between.
fn remembers(link: &mut ListLink) -> Option<bool> {
    let mut right = send_again(link, 1)?;
    if link.tell_all(Post::Gone(node_id(3))).is_err() {
        return None;
    }
    for number in 2..6 {
        right &= send_again(link, number)?;
    }
    Some(right && was_given(link, &[1, 203, 2, 3, 4, 5]))
}

#[test]
fn what_a_list_was_given(rt: HostRuntime) -> Outcome {
    check_answers(&[remembers(&mut ListLink::of(Vec::new(rt.alloc())))])
}

/// Whether the next fates of a weather are these.
fn brings_fates(weather: &mut Weather, fates: &[Fate]) -> bool {
    let mut fits = true;
    for fate in fates {
        fits &= weather.fate() == *fate;
    }
    fits
}

/// Whether the first fates at a place are these, in the weather of a seed.
fn begins_with(seed: u64, place: u32, fates: &[Fate]) -> bool {
    match Weather::of(seed, 250, 250, 250) {
        Ok(weather) => brings_fates(&mut weather.at(place), fates),
        Err(_) => false,
    }
}

/// The first seed in whose weather the first fates at a place are these.
fn seed_with(place: u32, fates: &[Fate]) -> Option<u64> {
    for seed in 0..100_000u64 {
        if begins_with(seed, place, fates) {
            return Some(seed);
        }
    }
    None
}

/// The place of the node's link, where one node and one client are linked.
const NODE: u8 = 0;
/// The place of the client's.
const CLIENT: u8 = 1;

/// Between a node and a client: over whose link parcels are sent, to whom, and whose link is dropped then.
#[derive(Clone, Copy)]
struct Course {
    from: u8,
    to: Actor,
    dropped: u8,
}

/// Fates of parcels, and the numbers that come for them.
type Fated = (&'static [Fate], &'static [u32]);

/// The links of one node and one client, where the first fates over that at a place are these.
fn link_both<R: Wait + Copy>(
    rt: R,
    alloc: Global,
    place: u8,
    fates: &[Fate],
) -> Option<Vec<ChannelLink<R>>> {
    let place = u32::from(place);
    let weather = Weather::of(seed_with(place, fates)?, 250, 250, 250).ok()?;
    ChannelLink::all(rt, alloc, 1, 1, &weather).ok()
}

/// Whether the link at a place takes so many parcels, numbered from 1, for an actor.
fn send_all<L: Link>(links: &mut [L], place: usize, to: &Actor, count: usize) -> bool {
    let mut sent = true;
    let mut number = 0u32;
    for _ in 0..count {
        number = number.wrapping_add(1);
        sent &= sends(links, place, to, number);
    }
    sent
}

/// Whether over each link just the posts of its numbers come, and then it is closed.
fn all_bring<L: Link>(links: &mut [L], wanted: &[&[u32]]) -> bool {
    let mut right = links.len() == wanted.len();
    for (link, want) in links.iter_mut().zip(wanted.iter()) {
        right &= brings(link, want);
    }
    right
}

/// Whether just these come over the link that is left, where parcels meet these fates on this course.
fn come<R: Wait + Copy>(
    rt: R,
    alloc: Global,
    course: &Course,
    fates: &[Fate],
    want: &[u32],
) -> Option<bool> {
    let mut links = link_both(rt, alloc, course.from, fates)?;
    let from = usize::from(course.from);
    let sent = send_all(&mut links, from, &course.to, fates.len());
    drop(taken(&mut links, usize::from(course.dropped)));
    sent.then_some(all_bring(&mut links, &[want]))
}

/// Ends the test unless in each row the numbers come for the fates on this course.
fn all_come<R: Wait + Copy>(rt: R, alloc: Global, course: &Course, rows: &[Fated]) -> Outcome {
    for (row, (fates, want)) in rows.iter().enumerate() {
        check_answer(come(rt, alloc, course, fates, want), row)?;
    }
    Ok(())
}

/// What comes to the node, of a client's parcels.
fn to_node() -> Course {
    Course {
        from: CLIENT,
        to: Actor::Node(node_id(1)),
        dropped: CLIENT,
    }
}

/// Late parcels of a client.
const LATE: [Fated; 6] = [
    (&[Fate::Late], &[]),
    (&[Fate::Late, Fate::Plain], &[2, 1]),
    (&[Fate::Late, Fate::Plain, Fate::Plain], &[2, 1, 3]),
    (&[Fate::Late, Fate::Late, Fate::Plain], &[1, 3, 2]),
    (&[Fate::Late, Fate::Lost, Fate::Plain], &[1, 3]),
    (&[Fate::Late, Fate::Twice], &[2, 2, 1]),
];

#[test]
fn late_parcels(rt: HostRuntime) -> Outcome {
    all_come(rt, rt.alloc(), &to_node(), &LATE)
}

/// Parcels of a client that are not late.
const PLAIN: [Fated; 3] = [
    (&[Fate::Plain, Fate::Plain, Fate::Plain], &[1, 2, 3]),
    (&[Fate::Twice, Fate::Plain], &[1, 1, 2]),
    (&[Fate::Lost, Fate::Plain], &[2]),
];

#[test]
fn plain_and_repeated_parcels(rt: HostRuntime) -> Outcome {
    all_come(rt, rt.alloc(), &to_node(), &PLAIN)
}

/// A client's parcels, and its own nudges for them.
const OWN: [Fated; 3] = [
    (&[Fate::Plain, Fate::Twice], &[]),
    (&[Fate::Lost], &[101]),
    (&[Fate::Late, Fate::Plain, Fate::Lost], &[101, 101]),
];

#[test]
fn nudges_for_requests(rt: HostRuntime) -> Outcome {
    let own = Course {
        from: CLIENT,
        to: Actor::Node(node_id(1)),
        dropped: NODE,
    };
    all_come(rt, rt.alloc(), &own, &OWN)
}

/// A node's parcels, and what comes to the client.
const REPLIES: [Fated; 3] = [
    (&[Fate::Lost, Fate::Plain], &[101, 2]),
    (&[Fate::Late, Fate::Plain], &[101, 2, 1]),
    (&[Fate::Twice, Fate::Late], &[1, 1, 101]),
];

#[test]
fn nudges_for_replies(rt: HostRuntime) -> Outcome {
    let to_client = Course {
        from: NODE,
        to: Actor::Client(client_id(1)),
        dropped: NODE,
    };
    all_come(rt, rt.alloc(), &to_client, &REPLIES)
}

/// Whether nothing comes to a client whose parcels go to a node that has ended, and to actors that never were.
fn nothing_comes<R: Wait + Copy>(rt: R, alloc: Global) -> Option<bool> {
    let mut links = links_of(rt, alloc, 1, 1, (0, 0))?;
    drop(taken(&mut links, 0));
    let mut sent = send_all(&mut links, 0, &Actor::Node(node_id(1)), 3);
    sent &= send_all(&mut links, 0, &Actor::Node(node_id(16)), 3);
    sent &= send_all(&mut links, 0, &Actor::Client(client_id(2)), 3);
    sent.then_some(all_bring(&mut links, &[&[]]))
}

#[test]
fn actors_that_have_ended(rt: HostRuntime) -> Outcome {
    check_answers(&[nothing_comes(rt, rt.alloc())])
}

/// Whether a link takes parcels, numbered from this number on, for one actor after the other.
fn send_to_each<L: Link>(link: &mut L, from: u32, actors: &[Actor]) -> bool {
    let mut sent = true;
    let mut number = from;
    for actor in actors {
        sent &= link.send(*actor, parcel(number)).is_ok();
        number = number.wrapping_add(1);
    }
    sent
}

/// Whether each of some links takes a parcel for each of these actors, numbered from 10, 20 and so on.
fn all_send<L: Link>(links: &mut [L], actors: &[Actor]) -> bool {
    let mut sent = true;
    let mut number = 10u32;
    for link in links.iter_mut() {
        sent &= send_to_each(link, number, actors);
        number = number.wrapping_add(10);
    }
    sent
}

/// Whether so many parcels come over a link, each numbered ten above the one before.
fn brings_tens<L: Link>(link: &mut L, first: u32, count: usize) -> bool {
    let mut right = true;
    let mut number = first;
    for _ in 0..count {
        right &= next_is(link, number);
        number = number.wrapping_add(10);
    }
    right
}

/// Whether over each of some links its parcel comes from each of so many.
fn all_bring_tens<L: Link>(links: &mut [L], count: usize) -> bool {
    let mut right = true;
    let mut number = 10u32;
    for link in links.iter_mut() {
        right &= brings_tens(link, number, count);
        number = number.wrapping_add(1);
    }
    right
}

/// Whether what each of some links sends to each of these actors comes over the others, which are theirs.
fn all_reach<L: Link>(senders: &mut [L], actors: &[Actor], receivers: &mut [L]) -> Option<bool> {
    if !all_send(senders, actors) {
        return None;
    }
    Some(all_bring_tens(receivers, senders.len()))
}

/// Whether three nodes, whose links come first, and two clients reach one another.
fn reach_each_other<L: Link>(links: &mut [L]) -> Option<bool> {
    let to_nodes = [
        Actor::Node(node_id(1)),
        Actor::Node(node_id(2)),
        Actor::Node(node_id(3)),
    ];
    let to_clients = [Actor::Client(client_id(1)), Actor::Client(client_id(2))];
    let (nodes, clients) = links.split_at_mut_checked(3)?;
    let there = all_reach(clients, &to_nodes, nodes);
    let back = all_reach(nodes, &to_clients, clients);
    Some(there? && back?)
}

/// Whether the links of three nodes and two clients do.
fn links_reach<R: Wait + Copy>(rt: R, alloc: Global) -> Option<bool> {
    let mut links = links_of(rt, alloc, 3, 2, (0, 0))?;
    reach_each_other(&mut links)
}

#[test]
fn parcels_reach_their_actors(rt: HostRuntime) -> Outcome {
    check_answers(&[links_reach(rt, rt.alloc())])
}

/// Whether the link at a place takes a post for every client.
fn tells<L: Link>(links: &mut [L], place: usize, post: Post) -> bool {
    match links.get_mut(place) {
        Some(link) => link.tell_all(post).is_ok(),
        None => false,
    }
}

/// Whether what two nodes tell, past the weather, comes to each of three clients.
fn all_are_told<R: Wait + Copy>(rt: R, alloc: Global) -> Option<bool> {
    let mut links = links_of(rt, alloc, 2, 3, (1_000, 0))?;
    let mut told = tells(&mut links, 1, Post::Nudge(node_id(2)));
    told &= tells(&mut links, 0, Post::Gone(node_id(1)));
    drop(taken(&mut links, 1));
    drop(taken(&mut links, 0));
    told.then_some(all_bring(&mut links, &[&[102, 201], &[102, 201], &[102, 201]]))
}

#[test]
fn told_to_every_client(rt: HostRuntime) -> Outcome {
    check_answers(&[all_are_told(rt, rt.alloc())])
}

/// Numbers of nodes and of clients, and of their links.
const COUNTS: [(u8, u16, usize); 4] = [(0, 0, 0), (3, 4, 7), (17, 1, 17), (1, 1_025, 1_025)];

/// Whether so many nodes and clients have so many links.
fn have_links<R: Wait + Copy>(
    rt: R,
    alloc: Global,
    nodes: u8,
    clients: u16,
    want: usize,
) -> Option<bool> {
    let links = links_of(rt, alloc, nodes, clients, (0, 0))?;
    Some(links.len() == want)
}

#[test]
fn no_more_links_than_actors(rt: HostRuntime) -> Outcome {
    for (row, (nodes, clients, want)) in COUNTS.iter().enumerate() {
        check_answer(have_links(rt, rt.alloc(), *nodes, *clients, *want), row)?;
    }
    Ok(())
}

// A service of one node, and a few values.

use lock_messages::{Attempt, Message, Mode, ResourceName, Ticket, encode};
use lossy_link::{Parcel, Post};
use std::alloc::Global;
use test_outcomes::{Failure, client_id};
use vote_weights::{Ballot, BallotList};

/// The list of one ballot: a node with a vote, which is enough to read and to write.
pub(crate) fn ballots() -> Result<BallotList, Failure> {
    let Ok(ballot) = Ballot::of(&[1], 1, 1) else {
        return Err(Failure::Wrong(0));
    };
    match BallotList::of(&[ballot]) {
        Ok(ballots) => Ok(ballots),
        Err(_) => Err(Failure::Wrong(0)),
    }
}

/// c1's first ticket, to write `a`.
pub(crate) fn ticket() -> Result<Ticket, Failure> {
    Ok(Ticket {
        client: client_id(1),
        attempt: Attempt::of(1).ok_or(Failure::Wrong(0))?,
        mode: Mode::Write,
        resource: ResourceName::of(b"a").ok_or(Failure::Wrong(0))?,
    })
}

/// The post that brings this message.
pub(crate) fn post_of(alloc: Global, message: &Message) -> Result<Post, Failure> {
    let Ok(frame) = encode(alloc, message) else {
        return Err(Failure::Memory);
    };
    Ok(Post::Parcel(Parcel { number: 1, frame }))
}

// A link at whose other end a node takes its turns at once.

ghost use Rattle.std.specs.Prelude.{IsOkUnless};

use crate::posts::frame;
use crate::scripts::Others;
use book_recorders::{BookName, Logs};
use bytes::Bytes;
use history_book::BookFault;
use lock_messages::{Actor, NodeId};
use lossy_link::{Link, LinkFault, ListLink, Parcel, Post};
use std::alloc::Global;
use std::sync::Wait;
use test_outcomes::Failure;
use test_support::Inbox;
use world_model::{Effect, Event};

/// A link that brings what another one does and, behind that, the answers of a node. The node is one of the others
/// beside the client, in the same thread: it takes what is sent as soon as it is sent, and keeps and says what
/// follows; where it has kept something it may nudge first, and behind its first answer it may be gone. A parcel's
/// frame is always the same, since who hears it goes by its number. Who sends to another node is told that a node
/// is gone.
#[derive(Drop)]
pub(crate) struct Neighbour<'l, 'a, B: BookName, K: Logs, R: Copy> {
    others: &'l mut Others<'a, B, K, R>,
    link: &'l mut ListLink,
    node: NodeId,
    gone: NodeId,
    frame: Bytes,
    inbox: Inbox,
    goes: bool,
}

impl<'l, 'a, B: BookName, K: Logs, R: Wait + Copy> Neighbour<'l, 'a, B, K, R> {
    /// The link over which the first of the two nodes answers; the second is the one that is gone.
    pub(crate) fn of(
        alloc: Global,
        others: &'l mut Others<'a, B, K, R>,
        link: &'l mut ListLink,
        nodes: (NodeId, NodeId),
        nudges: u32,
        goes: bool,
    ) -> Result<Neighbour<'l, 'a, B, K, R>, Failure> {
        let (node, gone) = nodes;
        Ok(Neighbour {
            others,
            link,
            node,
            gone,
            frame: frame(alloc, "grant")?,
            inbox: Inbox::of(alloc, node, nudges),
            goes,
        })
    }

    /// The node's turn with the message of a number, and the replies that it says: the number of the first, and
    /// how many there are. Where it keeps something it is about to nudge.
    fn turn(&mut self, number: u32) -> Result<(u32, u32), BookFault> {
        let taken = self.others.log_event(&Event::Take(self.node, number))?;
        if let Effect::Took(_, true) = taken {
            self.others.log_event(&Event::Try(Actor::Node(self.node)))?;
            self.others.log_event(&Event::Kept(Actor::Node(self.node)))?;
            self.inbox.keep();
        }
        match self.others.log_event(&Event::Say(self.node))? {
            Effect::Said { first, count } => Ok((first, count)),
            _ => Ok((0, 0)),
        }
    }

    /// The replies of these numbers will be brought, behind the node's nudges, and that the node is gone, if it
    /// goes.
    fn answer(&mut self, first: u32, count: u32) -> Result<(), LinkFault>
        ensures { IsOkUnless result LinkFault.Memory }
    {
        self.inbox.nudge()?;
        for place in 0..count {
            let number = first.wrapping_add(place);
            let Ok(frame) = self.frame.clone() else {
                return Err(LinkFault::Memory);
            };
            self.inbox.bring(Post::Parcel(Parcel { number, frame }))?;
        }
        if self.goes {
            self.inbox.bring(Post::Gone(self.node))?;
        }
        self.goes = false;
        Ok(())
    }
}

impl<'l, 'a, B: BookName, K: Logs, R: Wait + Copy> Link for Neighbour<'l, 'a, B, K, R> {
    ghost use Rattle.std.specs.Prelude.{None};

    ghost coming = { λ _. None };

    ghost given = { λ _. None };

    ghost refused = { λ _. None };

    /// Brings what the node answers or, where it goes to another, that a node is gone.
    fn send(&mut self, to: Actor, parcel: Parcel) -> Result<(), LinkFault> {
        if to != Actor::Node(self.node) {
            return self.inbox.bring(Post::Gone(self.gone));
        }
        match self.turn(parcel.number) {
            Ok((first, count)) => self.answer(first, count),
            Err(BookFault::Memory) => Err(LinkFault::Memory),
            Err(_) => Ok(()),
        }
    }

    fn tell_all(&mut self, post: Post) -> Result<(), LinkFault> {
        let _ = post;
        Ok(())
    }

    fn receive(&mut self) -> Result<Post, LinkFault> {
        match self.link.receive() {
            Ok(post) => Ok(post),
            Err(_) => self.inbox.receive(),
        }
    }
}

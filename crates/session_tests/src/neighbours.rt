// A link at whose other end a node takes its turns at once.

ghost use Rattle.std.specs.Prelude.{IsOkUnless};

use crate::worlds::frame_for;
use book_recorders::{BookName, BookRecorder, Logs};
use history_book::BookFault;
use lock_messages::{Actor, NodeId};
use lossy_link::{Link, LinkFault, Parcel, Post};
use std::alloc::Global;
use std::sync::Wait;
use test_support::Inbox;
use world_model::{Age, Effect, Event};

/// A link that brings given posts and, behind them, the answers of a node. The node is beside the
/// client, in the same thread: it takes what is sent as soon as it is sent, and keeps and says what
/// follows; where it has kept something it may nudge first. A parcel's frame is always the same, since who
/// hears it goes by its number.
///
/// One parcel, by its number from 1 on, may be lost: for want of memory (903) it is refused, and else it goes
/// nowhere, so that nothing comes any more (902).
#[derive(Drop)]
pub(crate) struct Neighbour<'a, B: BookName, K: Logs, R: Copy> {
    alloc: Global,
    node: NodeId,
    recorder: BookRecorder<'a, B, K, R>,
    inbox: Inbox,
    lost: Option<(u32, LinkFault)>,
}

impl<'a, B: BookName, K: Logs, R: Wait + Copy> Neighbour<'a, B, K, R> {
    /// The link over which the node answers with so many nudges before each answer, and which loses that parcel.
    pub(crate) fn of(
        alloc: Global,
        node: NodeId,
        recorder: BookRecorder<'a, B, K, R>,
        nudges: u32,
        lost: Option<(u32, LinkFault)>,
    ) -> Neighbour<'a, B, K, R> {
        Neighbour {
            alloc,
            node,
            recorder,
            inbox: Inbox::of(alloc, node, nudges),
            lost,
        }
    }

    /// The node rises.
    pub(crate) fn rise(&mut self) -> Result<Effect, BookFault> {
        self.recorder
            .log_event(Event::Rise(Actor::Node(self.node), Age::Old))
    }

    /// The node keeps what it decided, and is about to nudge.
    fn keep(&mut self) -> Result<(), BookFault> {
        self.recorder.log_event(Event::Try(Actor::Node(self.node)))?;
        self.recorder
            .log_event(Event::Kept(Actor::Node(self.node)))?;
        self.inbox.keep();
        Ok(())
    }

    /// The node's turn with the message of a number, and the replies that it says: the number of the
    /// first, and how many there are.
    pub(crate) fn turn(&mut self, number: u32) -> Result<(u32, u32), BookFault> {
        if let Effect::Took(_, true) = self.recorder.log_event(Event::Take(self.node, number))? {
            self.keep()?;
        }
        match self.recorder.log_event(Event::Say(self.node))? {
            Effect::Said { first, count } => Ok((first, count)),
            _ => Ok((0, 0)),
        }
    }

    /// That the node is gone will be brought.
    pub(crate) fn go(&mut self) -> Result<(), LinkFault>
        ensures { IsOkUnless result LinkFault.Memory }
    {
        self.inbox.bring(Post::Gone(self.node))
    }

    /// The reply of this number will be brought.
    fn reply(&mut self, number: u32) -> Result<(), LinkFault>
        ensures { IsOkUnless result LinkFault.Memory }
    {
        match frame_for(self.alloc, 1) {
            Ok(frame) => self.inbox.bring(Post::Parcel(Parcel { number, frame })),
            Err(_) => Err(LinkFault::Memory),
        }
    }

    /// The replies of these numbers will be brought, behind the node's nudges.
    fn answer(&mut self, first: u32, count: u32) -> Result<(), LinkFault>
        ensures { IsOkUnless result LinkFault.Memory }
    {
        self.inbox.nudge()?;
        for place in 0..count {
            self.reply(first.wrapping_add(place))?;
        }
        Ok(())
    }

    /// The fault by which the next parcel is lost, if it is.
    fn lose(&mut self) -> Option<LinkFault> {
        let (number, fault) = self.lost?;
        if number <= 1 {
            self.lost = None;
            return Some(fault);
        }
        self.lost = Some((number - 1, fault));
        None
    }

    /// What the node answers to the message of this number will be brought. Of one that is lost it sees nothing.
    fn pass(&mut self, number: u32) -> Result<(), LinkFault>
        ensures { IsOkUnless result LinkFault.Memory }
    {
        match self.lose() {
            Some(LinkFault::Memory) => return Err(LinkFault::Memory),
            Some(LinkFault::Closed) => return Ok(()),
            None => {}
        }
        match self.turn(number) {
            Ok((first, count)) => self.answer(first, count),
            Err(BookFault::Memory) => Err(LinkFault::Memory),
            Err(_) => Ok(()),
        }
    }
}

impl<'a, B: BookName, K: Logs, R: Wait + Copy> Link for Neighbour<'a, B, K, R> {
    ghost use Rattle.std.specs.Prelude.{None};

    ghost coming = { λ _. None };

    ghost given = { λ _. None };

    ghost refused = { λ _. None };

    fn send(&mut self, to: Actor, parcel: Parcel) -> Result<(), LinkFault> {
        let _ = to;
        self.pass(parcel.number)
    }

    fn tell_all(&mut self, post: Post) -> Result<(), LinkFault> {
        let _ = post;
        Ok(())
    }

    fn receive(&mut self) -> Result<Post, LinkFault> {
        self.inbox.receive()
    }
}

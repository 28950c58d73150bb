// What a client remembers from post to post.

ghost use Rattle.std.specs.Prelude.{◌≡◌, ◌↔◌, ◌||◌, ℕ, [], false, IsTrue, if◌then◌else◌};
ghost use Rattle.lock_model.specs.Ballots.{HasPlace};
ghost use Rattle.vote_weights.specs.Sets.{has_node, with_node};
ghost use Rattle.client_core.specs.Calls.{MayEnter, MayLeave, entered, left, skipping};
ghost use Rattle.client_loop.specs.Hearing.{granted_after, released_after, busy_after};
ghost use Rattle.client_loop.specs.Standing.{IsAlike};
ghost use Rattle.client_loop.specs.Remembering.{core_of, with_core, asked_of, released_of, expecting_all};
ghost use Rattle.client_loop.specs.Nodes.{CanSuffice, IsReleased, Owes, Skips, is_among, is_gone_among};

use client_core::ClientCore;
use lock_messages::{Mode, NodeId};
use lock_model::Heard;
use vote_weights::NodeSet;

/// What a client remembers from post to post: its core, the nodes that are gone, and of the present
/// wish the nodes to which it has sent something, those whose vote was counted, those that answered its
/// release, the number of nudges and how many it may have, and whether a node let it wait.
#[derive(Drop)]
pub struct Progress {
    pub(crate) core: ClientCore,
    pub(crate) gone: NodeSet,
    pub(crate) asked: NodeSet,
    pub(crate) granted: NodeSet,
    pub(crate) released: NodeSet,
    pub(crate) nudges: u32,
    pub(crate) most_nudges: u32,
    pub(crate) busy: bool,
}

/// How long a client goes on asking for one wish.
#[derive(Clone, Copy, Debug, PartialEq, Eq)]
pub struct Patience {
    /// It gives up at this nudge (913), and at the first where it is 0.
    pub nudges: u32,
    /// Whether it waits where a node answers that others go before it; else it takes the wish back then. Where it
    /// waits it asks one node after another, so that no two clients wait for each other; else several at once.
    pub waits: bool,
}

/// The most nudges of one wish.
pub const MAX_NUDGES: u32 = 1000;

impl Progress {
    /// Nothing is known yet but the core.
    pub(crate) fn of(core: ClientCore) -> Progress
        ensures { result ≡ record { core = core; gone = []; asked = []; granted = []; released = []; nudges = 0; most_nudges = MAX_NUDGES; busy = false } }
    {
        Progress {
            core,
            gone: NodeSet::empty(),
            asked: NodeSet::empty(),
            granted: NodeSet::empty(),
            released: NodeSet::empty(),
            nudges: 0,
            most_nudges: MAX_NUDGES,
            busy: false,
        }
    }

    /// The client's core, to be looked at.
    pub fn core(&self) -> &ClientCore
        ensures { result.now ≡ core_of self.now }
    {
        &self.core
    }

    /// The nodes to which something was sent in the present wish.
    pub fn asked(&self) -> NodeSet
        ensures { result ≡ asked_of self.now }
    {
        self.asked
    }

    /// The nodes that answered the release of the present wish.
    pub fn released(&self) -> NodeSet
        ensures { result ≡ released_of self.now }
    {
        self.released
    }

    /// Expects each node again: a node that was gone is asked again.
    pub fn expect_all(&mut self)
        ensures { self.new ≡ expecting_all self.old }
    {
        self.gone = NodeSet::empty();
    }

    /// The client is inside, as its own log has it already.
    ///
    /// The caller owes that the core may enter.
    pub fn go_in(&mut self)
        requires { MayEnter (core_of self.old) }
        ensures { self.new ≡ with_core self.old (entered (core_of self.old)) }
    {
        self.core.enter();
    }

    /// The client is outside; its own log has yet to say so.
    ///
    /// The caller owes that the core asks or is inside.
    pub fn go_out(&mut self)
        requires { MayLeave (core_of self.old) }
        ensures { self.new ≡ with_core self.old (left (core_of self.old)) }
    {
        self.core.leave();
    }

    /// Forgets what was of the last wish: whom it asked, who granted and who was released, its nudges, and
    /// that it was to wait. This one may have so many nudges. The core and the nodes that are gone stay.
    pub(crate) fn begin_wish(&mut self, most_nudges: u32)
        ensures { self.new ≡ record self.old { asked = []; granted = []; released = []; nudges = 0; most_nudges = most_nudges; busy = false } }
    {
        self.asked = NodeSet::empty();
        self.granted = NodeSet::empty();
        self.released = NodeSet::empty();
        self.nudges = 0;
        self.most_nudges = most_nudges;
        self.busy = false;
    }

    /// Remembers what was made of a message of the node: a vote that was counted, a release that was
    /// answered, and that it is to wait. Else nothing changes.
    pub(crate) fn remember(&mut self, node: NodeId, heard: Heard)
        ensures { self.new ≡ record self.old { granted = granted_after heard node self.old.granted; released = released_after heard node self.old.released; busy = busy_after heard self.old.busy } }
    {
        match heard {
            Heard::Counted => self.granted = self.granted.with(node),
            Heard::Done => self.released = self.released.with(node),
            Heard::Busy => self.busy = true,
            Heard::Known | Heard::Softened | Heard::NotMine => {}
        }
    }

    /// The node is gone: it is skipped.
    pub(crate) fn lose(&mut self, node: NodeId)
        ensures exact { self.new ≡ record self.old { core = skipping self.old.core node; gone = with_node self.old.gone node } }
        ensures alike { IsAlike self.old.core self.new.core }
    {
        self.gone = self.gone.with(node);
        self.core.skip(node);
    }

    /// Every node of the ballots is gone.
    pub(crate) fn lose_all(&mut self)
        ensures gone { (n : ℕ) → has_node self.new.gone n ≡ (is_among self.old.core.ballots n || has_node self.old.gone n) }
        ensures skipped { Skips (is_among self.old.core.ballots) self.old.core self.new.core }
        ensures alike { IsAlike self.old.core self.new.core }
        ensures others { self.new ≡ record self.old { core = self.new.core; gone = self.new.gone } }
    {
        for number in 1..self.core.ballots().nodes() + 1 {
            let Some(node) = NodeId::of(number) else {
                return;
            };
            self.lose(node);
        }
    }

    /// Skips the node where it is gone.
    fn skip_if_gone(&mut self, node: NodeId)
        ensures exact { self.new ≡ record self.old { core = (if has_node self.old.gone node then skipping self.old.core node else self.old.core) } }
        ensures alike { IsAlike self.old.core self.new.core }
    {
        if self.gone.has(node) {
            self.core.skip(node);
        }
    }

    /// Skips the nodes that are gone.
    pub(crate) fn skip_gone(&mut self)
        ensures skipped { Skips (is_gone_among self.old.core.ballots self.old.gone) self.old.core self.new.core }
        ensures alike { IsAlike self.old.core self.new.core }
        ensures others { self.new ≡ record self.old { core = self.new.core } }
    {
        for number in 1..self.core.ballots().nodes() + 1 {
            let Some(node) = NodeId::of(number) else {
                return;
            };
            self.skip_if_gone(node);
        }
    }

    /// Whether the nodes that granted and those that aren't gone are enough by the ballot at the place,
    /// which the list has to have.
    pub(crate) fn can_suffice(&self, place: u8, mode: Mode) -> bool
        requires { HasPlace self.now.core.ballots place }
        ensures { IsTrue result ↔ CanSuffice self.now.core.ballots place mode self.now.granted self.now.gone }
    {
        let Some(ballot) = self.core.ballots().ballot(place) else {
            unreachable!()
        };
        let mut possible = self.granted;
        for number in 1..ballot.nodes() + 1 {
            let Some(node) = NodeId::of(number) else {
                return false;
            };
            if !self.gone.has(node) {
                possible = possible.with(node);
            }
        }
        ballot.enough(mode, possible)
    }

    /// Whether the node still has to answer the release: it was asked, has not answered and isn't gone.
    pub(crate) fn owes(&self, node: NodeId) -> bool
        ensures { IsTrue result ↔ Owes self.now.asked self.now.released self.now.gone node }
    {
        self.asked.has(node) && !self.released.has(node) && !self.gone.has(node)
    }

    /// Whether each node that was asked has answered the release, or is gone.
    pub(crate) fn is_released(&self) -> bool
        ensures { IsTrue result ↔ IsReleased self.now.core.ballots self.now.asked self.now.released self.now.gone }
    {
        for number in 1..self.core.ballots().nodes() + 1 {
            let Some(node) = NodeId::of(number) else {
                return true;
            };
            if self.owes(node) {
                return false;
            }
        }
        true
    }
}

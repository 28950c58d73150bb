// One client's attempts.

ghost use Rattle.std.specs.Prelude.{◌≡◌, ◌≢◌, ℕ, ◌≤◌, ◌+◌, ◌==◌, ◌&&◌, ◌||◌, ◌↔◌, ◌⊎◌, IsTrue, IsNone, IfSome, IfOk, OnOk, OnErr};
ghost use Rattle.std.specs.Option.{option_map};
ghost use Rattle.lock_model.specs.ExactHearing.{is_counted};
ghost use Rattle.lock_messages.specs.Messages.{named_node};
ghost use Rattle.lock_model.specs.Ballots.{HasAnyNode, HasPlace, node_count};
ghost use Rattle.vote_weights.specs.Sets.{has_node};
ghost use Rattle.client_core.specs.Clients.{phase_of, ticket_of, place_of, softened_ticket, granted_of, IsLawfulClient};
ghost use Rattle.client_core.specs.Calls.{at_rest, begun, begin_answer, asking, entered, MayEnter, MaySoften, softened, MayLeave, left, release_of, said_inside, message_for, ReleasesAll, SoftensAll, heard_inside, HearsInside, heard_by, counted, AddsVote, after_hearing, Hears, IsOpen, skipping};

use crate::hearing::{heard_at_rest, heard_of_ticket, heard_softened, is_node_of};
use crate::phases::{Present, State};
use crate::{ClientFault, Phase};
use lock_messages::{Attempt, ClientId, MAX_ATTEMPT, Message, Mode, NodeId, ResourceName, Ticket};
use lock_model::{Heard, laws};
use std::marker::Model;
use vote_weights::{BallotList, NodeSet};

/// One client's attempts to use resources, one at a time.
///
/// Contracts see the client's number, its ballots in order, the number of its latest attempt, and what it
/// does with what it has then.
#[derive(Debug, PartialEq, Eq, Drop)]
pub struct ClientCore {
    client: ClientId,
    ballots: BallotList,
    attempt: u64,
    state: State,
}

impl Model for ClientCore {
    ghost use Rattle.client_core.specs.Clients.{Client, client_of, IsLawfulClient};

    ghost Value = { Client };

    ghost view = { λ c. client_of c.client c.ballots c.attempt c.state };

    ghost invariant = { λ c. IsLawfulClient (client_of c.client c.ballots c.attempt c.state) };

    ghost inverse = { λ c. record {
      client = c.client;
      ballots = c.ballots;
      attempt = c.attempt;
      state = c.state;
    } };
}

impl ClientCore {
    /// The client with this number, at rest after the attempt that its record has: 0 for none yet,
    /// else that attempt is over.
    ///
    /// The caller owes an attempt of at most `MAX_ATTEMPT`.
    pub fn rise(client: ClientId, attempt: u64, ballots: BallotList) -> ClientCore
        requires { attempt ≤ MAX_ATTEMPT }
        ensures { result ≡ at_rest client ballots attempt }
    {
        let state = State::Idle;
        ClientCore {
            client,
            ballots,
            attempt,
            state,
        }
    }

    /// Puts the client back at rest after the attempt that its record has, as a restart does: 0 for
    /// none yet, else that attempt is over. The number and the ballots stay, and what it was about is
    /// lost.
    ///
    /// The caller owes an attempt of at most `MAX_ATTEMPT`.
    pub fn restart(&mut self, attempt: u64)
        requires { attempt ≤ MAX_ATTEMPT }
        ensures { self.new ≡ at_rest self.old.client self.old.ballots attempt }
    {
        self.attempt = attempt;
        self.state = State::Idle;
    }

    /// A copy of the client: the same in all that it is, and from then on each of both goes its own way. It
    /// is a call of its own, so that no core is copied unseen.
    pub fn copy(&self) -> ClientCore
        ensures { result ≡ self.now }
    {
        ClientCore { ..*self }
    }

    /// The client's number.
    pub fn client(&self) -> ClientId
        ensures { result ≡ self.now.client }
    {
        self.client
    }

    /// The ballots by which its attempts may count their votes.
    pub fn ballots(&self) -> BallotList
        ensures { result ≡ self.now.ballots }
    {
        self.ballots
    }

    /// What the client does.
    pub fn phase(&self) -> Phase
        ensures phase { result ≡ phase_of self.now }
        ensures lawful { IsLawfulClient self.now }
    {
        self.state.phase()
    }

    /// The number of the latest attempt that was begun, also while it is chosen and not kept; 0 for
    /// none. At most `MAX_ATTEMPT`.
    pub fn attempt(&self) -> u64
        ensures attempt { result ≡ self.now.attempt }
        ensures in_range { result ≤ MAX_ATTEMPT }
    {
        let ClientCore { attempt, .. } = self;
        *attempt
    }

    /// The present ticket: that of the latest attempt while it is chosen, asked with or inside. Once it
    /// is softened its mode is `Read`. `None` while the client is idle.
    pub fn ticket(&self) -> Option<Ticket>
        ensures ticket { result ≡ ticket_of self.now }
        ensures own { IfSome result (λ t. t.client ≡ self.now.client) }
        ensures latest { IfSome result (λ t. t.attempt ≡ self.now.attempt) }
    {
        self.state.ticket()
    }

    /// The place in the list of the ballot by which the present attempt counts its votes. `None` while
    /// the client is idle.
    pub fn place(&self) -> Option<u8>
        ensures { result ≡ place_of self.now }
    {
        match self.state {
            State::Idle => None,
            State::Chosen(_, place) => Some(place),
            State::Asking(present) | State::Inside(present) => Some(present.place),
        }
    }

    /// The nodes whose Grant of the present ticket was counted: none while the client doesn't ask and is
    /// not inside.
    pub fn granted(&self) -> NodeSet
        ensures { result ≡ granted_of self.now }
    {
        match self.state {
            State::Idle | State::Chosen(..) => NodeSet::empty(),
            State::Asking(present) | State::Inside(present) => present.granted,
        }
    }

    /// Begins the next attempt, whose number it answers: a new ticket, with nothing granted or
    /// skipped, whose votes count by the ballot at this place of the list. The client has then chosen it.
    ///
    /// The caller keeps the number in the client's record, and then calls `kept`.
    ///
    /// # Errors
    ///
    /// `NotIdle` (701) while an attempt is under way, else `AttemptsSpent` (702) after the attempt
    /// `MAX_ATTEMPT`, else `NoSuchPlace` (703) where the list doesn't have the place. Nothing changes then.
    pub fn begin(
        &mut self,
        resource: ResourceName,
        mode: Mode,
        place: u8,
    ) -> Result<Attempt, ClientFault>
        ensures answer { result ≡ begin_answer self.old place }
        ensures begun { OnOk result (self.new ≡ begun self.old resource mode place) }
        ensures number { IfOk result (λ a. a ≡ self.old.attempt + 1) }
        ensures refused { OnErr result (self.new ≡ self.old) }
        ensures not_idle { (result ≡ Err ClientFault.NotIdle) ↔ (phase_of self.old ≢ Phase.Idle) }
        ensures spent { (result ≡ Err ClientFault.AttemptsSpent) ↔ ((phase_of self.old ≡ Phase.Idle) × (self.old.attempt ≡ MAX_ATTEMPT)) }
        ensures no_place { (result ≡ Err ClientFault.NoSuchPlace) ↔ ((phase_of self.old ≡ Phase.Idle) × (self.old.attempt ≢ MAX_ATTEMPT) × (HasPlace self.old.ballots place → ⊥)) }
    {
        let State::Idle = self.state else {
            return Err(ClientFault::NotIdle);
        };
        let Some(attempt) = Attempt::of(self.attempt + 1) else {
            return Err(ClientFault::AttemptsSpent);
        };
        if place < 1 || place > self.ballots.count() {
            return Err(ClientFault::NoSuchPlace);
        }
        let ticket = Ticket {
            client: self.client,
            attempt,
            mode,
            resource,
        };
        self.attempt = attempt.get();
        self.state = State::Chosen(ticket, place);
        Ok(attempt)
    }

    /// The chosen number is kept: the client asks with its ticket.
    ///
    /// The caller owes that the phase is `Chosen`.
    pub fn kept(&mut self)
        requires { phase_of self.old ≡ Phase.Chosen }
        ensures exact { self.new ≡ asking self.old }
        ensures asks { phase_of self.new ≡ Phase.Asking }
    {
        self.state = self.state.asks();
    }

    /// The release of the latest attempt, if there was one.
    fn release(&self, node: NodeId) -> Option<Message>
        ensures { result ≡ release_of node self.now.client self.now.attempt }
    {
        let attempt = Attempt::of(self.attempt)?;
        Some(Message::Release(node, self.client, attempt))
    }

    /// What there is to say to the node while the client is inside.
    fn said_inside(&self, node: NodeId, present: Present) -> Message
        ensures { result ≡ said_inside self.now.client node present }
    {
        if present.softened {
            Message::Soften(node, self.client, present.ticket.attempt)
        } else {
            Message::Request(node, present.ticket)
        }
    }

    /// What there is to say to the node: the request of the present ticket while the client asks or
    /// is inside, or that it has softened it once it has, asked or not; and the release of the latest
    /// attempt while it is idle, if there was one. `None` else, and for a node that no ballot of the list
    /// has.
    pub fn message_for(&self, node: NodeId) -> Option<Message>
        ensures { result ≡ message_for self.now node }
    {
        if !is_node_of(self.ballots.nodes(), node) {
            return None;
        }
        match self.state {
            State::Idle => self.release(node),
            State::Chosen(..) => None,
            State::Asking(present) => Some(Message::Request(node, present.ticket)),
            State::Inside(present) => Some(self.said_inside(node, present)),
        }
    }

    /// What the client makes of the message while it is inside.
    fn heard_inside(&self, present: Present, message: &Message) -> Heard
        ensures heard { result ≡ heard_inside (node_count self.now.ballots) self.now.client present message.now }
        ensures allowed { HearsInside (node_count self.now.ballots) self.now.client present message.now result }
    {
        laws::hearing_is_exact();
        let nodes = self.ballots.nodes();
        if present.softened {
            heard_softened(nodes, self.client, present.ticket.attempt, message)
        } else {
            heard_of_ticket(nodes, &present.ticket, present.granted, message)
        }
    }

    /// What the client makes of the message.
    fn heard(&self, message: &Message) -> Heard
        ensures heard { result ≡ heard_by self.now message.now }
        ensures allowed { Hears self.now message.now result }
    {
        laws::hearing_is_exact();
        let nodes = self.ballots.nodes();
        match self.state {
            State::Idle => heard_at_rest(nodes, self.client, self.attempt, message),
            State::Chosen(..) => Heard::NotMine,
            State::Asking(present) => {
                heard_of_ticket(nodes, &present.ticket, present.granted, message)
            }
            State::Inside(present) => self.heard_inside(present, message),
        }
    }

    /// Counts the node's vote.
    fn count(&mut self, node: NodeId)
        requires { HasAnyNode self.old.ballots node }
        ensures exact { self.new ≡ counted self.old node }
        ensures adds { AddsVote self.old.state node }
    {
        self.state = self.state.counts(node);
    }

    /// Hears a message, and answers what the client makes of it.
    ///
    /// `Counted` is a vote: while the client asks or is inside, a Grant of the present ticket, from
    /// a node of the list whose Grant was not counted yet (Gifford 1979: a node's votes count
    /// once). Its node is then among the granted ones; every other answer changes nothing. `Known`
    /// is the same from a node that was counted, `Busy` a Busy of the present ticket, `Done`, while
    /// the client is idle, a Done of its latest attempt, and `NotMine` everything else: what names
    /// another client, a node that no ballot of the list has, or another ticket or attempt.
    ///
    /// While the client is inside and has softened (our own rule), it is `Softened` for a Softened of
    /// the present attempt, from a node of the list, and `NotMine` for everything else, as a late Grant
    /// or Busy of the writer's ticket.
    pub fn hear(&mut self, message: &Message) -> Heard
        ensures heard { result ≡ heard_by self.old message.now }
        ensures allowed { Hears self.old message.now result }
        ensures exact { self.new ≡ after_hearing self.old message.now }
        ensures unchanged { result ≢ Heard.Counted → self.new ≡ self.old }
        ensures granted { (n : ℕ) → has_node (granted_of self.new) n ≡ ((is_counted result && (named_node message.now == n)) || has_node (granted_of self.old) n) }
    {
        let heard = self.heard(message);
        if let Heard::Counted = heard {
            self.count(message.node());
        }
        heard
    }

    /// Whether the client may enter: it asks, and the nodes that granted its ticket have enough
    /// votes for its mode by the ballot of its attempt (Gifford 1979).
    pub fn may_enter(&self) -> bool
        ensures { IsTrue result ↔ MayEnter self.now }
    {
        match self.state {
            State::Asking(present) => {
                let Some(ballot) = self.ballots.ballot(present.place) else {
                    unreachable!()
                };
                ballot.enough(present.ticket.mode, present.granted)
            }
            State::Idle | State::Chosen(..) | State::Inside(_) => false,
        }
    }

    /// Enters: the client is inside, with the same ticket, by the same ballot, and the same votes.
    ///
    /// The caller owes that it may; `may_enter` tells.
    pub fn enter(&mut self)
        requires { MayEnter self.old }
        ensures exact { self.new ≡ entered self.old }
        ensures inside { phase_of self.new ≡ Phase.Inside }
        ensures ticket { ticket_of self.new ≡ ticket_of self.old }
    {
        self.state = self.state.enters();
    }

    /// Whether the client may soften: it is inside with a writer's ticket.
    pub fn may_soften(&self) -> bool
        ensures { IsTrue result ↔ MaySoften self.now }
    {
        match self.state {
            State::Inside(present) => present.is_writers(),
            State::Idle | State::Chosen(..) | State::Asking(_) => false,
        }
    }

    /// Softens: the client, inside as a writer, is a reader from now on, with the same votes and without
    /// leaving. They are not counted anew, also where a reader needs more. `message_for` has then for each
    /// node of the list that the attempt is softened (our own rule).
    ///
    /// The caller owes that it may; `may_soften` tells.
    pub fn soften(&mut self)
        requires { MaySoften self.old }
        ensures exact { self.new ≡ softened self.old }
        ensures inside { phase_of self.new ≡ Phase.Inside }
        ensures ticket { ticket_of self.new ≡ option_map softened_ticket (ticket_of self.old) }
        ensures same_votes { granted_of self.new ≡ granted_of self.old }
        ensures tells { SoftensAll self.new self.old.attempt }
    {
        self.state = self.state.softens();
    }

    /// Leaves, or gives up asking: the client is idle and its attempt over. `message_for` has then
    /// the release of the attempt for each node of the list.
    ///
    /// The caller owes that the phase is `Asking` or `Inside`.
    pub fn leave(&mut self)
        requires { MayLeave self.old }
        ensures exact { self.new ≡ left self.old }
        ensures idle { phase_of self.new ≡ Phase.Idle }
        ensures same_attempt { self.new.attempt ≡ self.old.attempt }
        ensures releases { ReleasesAll self.new self.old.attempt }
    {
        self.restart(self.attempt);
    }

    /// The node to ask next: while the client asks, the lowest of its attempt's ballot whose Grant was
    /// not counted and that was not skipped. `None` where there is none, and in every other phase.
    pub fn next_ask(&self) -> Option<NodeId>
        ensures open { IfSome result (λ n. IsOpen self.now n) }
        ensures lowest { IfSome result (λ n. (m : ℕ) → IsOpen self.now m → n ≤ m) }
        ensures none { IsNone result → (m : ℕ) → IsOpen self.now m → ⊥ }
    {
        let State::Asking(
            Present {
                place,
                granted,
                skipped,
                ..
            },
        ) = self.state
        else {
            return None;
        };
        let Some(ballot) = self.ballots.ballot(place) else {
            unreachable!()
        };
        for number in 1..=ballot.nodes() {
            let node = NodeId::of(number)?;
            if !granted.has(node) && !skipped.has(node) {
                return Some(node);
            }
        }
        None
    }

    /// While the client asks, the node is not to be asked again in this attempt. In every other
    /// phase nothing changes.
    pub fn skip(&mut self, node: NodeId)
        ensures exact { self.new ≡ skipping self.old node }
        ensures same_votes { granted_of self.new ≡ granted_of self.old }
        ensures same_phase { phase_of self.new ≡ phase_of self.old }
    {
        self.state = self.state.skips(node);
    }
}

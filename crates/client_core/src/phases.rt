// What a client does.

ghost use Rattle.std.specs.Prelude.{◌≡◌};

use lock_messages::{Mode, NodeId, Ticket};
use vote_weights::NodeSet;

/// What a client does.
#[derive(Clone, Copy, Debug, PartialEq, Eq)]
pub enum Phase {
    /// No attempt is under way: there was none yet, or the latest is over.
    Idle,
    /// The next attempt's number is chosen, and not known to be kept.
    Chosen,
    /// It asks nodes for their votes.
    Asking,
    /// It uses the resource.
    Inside,
}

/// What a client has of its present attempt: the ticket that it asked with, the place of the ballot by
/// which its votes count, the nodes whose Grant was counted, those that were skipped, and whether it has
/// softened: then it is a reader, whatever that ticket says.
#[derive(Clone, Copy, Debug, PartialEq, Eq)]
pub(crate) struct Present {
    pub(crate) ticket: Ticket,
    pub(crate) place: u8,
    pub(crate) granted: NodeSet,
    pub(crate) skipped: NodeSet,
    pub(crate) softened: bool,
}

impl Present {
    ghost use Rattle.vote_weights.specs.Sets.{with_node};
    ghost use Rattle.std.specs.Prelude.{◌↔◌, IsTrue};
    ghost use Rattle.client_core.specs.Clients.{present_ticket};
    ghost use Rattle.client_core.specs.Calls.{first_of, with_vote, without, soft, IsWriters, AddsNode};

    /// The attempt with this ticket and place, as it begins to ask: nothing is granted or skipped.
    fn first(ticket: Ticket, place: u8) -> Present
        ensures { result ≡ first_of ticket place }
    {
        Present {
            ticket,
            place,
            granted: NodeSet::empty(),
            skipped: NodeSet::empty(),
            softened: false,
        }
    }

    /// Its ticket: the one that it asked with, and once it has softened that as a reader's.
    fn present_ticket(self) -> Ticket
        ensures { result ≡ present_ticket self }
    {
        if self.softened {
            Ticket {
                mode: Mode::Read,
                ..self.ticket
            }
        } else {
            self.ticket
        }
    }

    /// Whether its ticket is a writer's, so that it can be softened.
    pub(crate) fn is_writers(self) -> bool
        ensures { IsTrue result ↔ IsWriters self }
    {
        self.ticket.mode == Mode::Write && !self.softened
    }

    /// The same with the node's Grant counted.
    fn with_vote(self, node: NodeId) -> Present
        ensures exact { result ≡ with_vote node self }
        ensures adds { AddsNode self.granted node (with_node self.granted node) }
    {
        Present {
            granted: self.granted.with(node),
            ..self
        }
    }

    /// The same with the node skipped.
    fn without(self, node: NodeId) -> Present
        ensures { result ≡ without node self }
    {
        Present {
            skipped: self.skipped.with(node),
            ..self
        }
    }

    /// The same, softened.
    fn soft(self) -> Present
        ensures { result ≡ soft self }
    {
        Present {
            softened: true,
            ..self
        }
    }
}

/// What a client does, with what it has then.
#[derive(Clone, Copy, Debug, PartialEq, Eq)]
pub(crate) enum State {
    Idle,
    /// The ticket, and the place of the ballot by which its votes will count.
    Chosen(Ticket, u8),
    Asking(Present),
    Inside(Present),
}

impl State {
    ghost use Rattle.client_core.specs.Clients.{phase_in, ticket_in};
    ghost use Rattle.client_core.specs.Calls.{asks_in, enters_in, softens_in, counts_in, skips_in, AddsVote};

    /// The phase.
    pub(crate) fn phase(self) -> Phase
        ensures { result ≡ phase_in self }
    {
        match self {
            State::Idle => Phase::Idle,
            State::Chosen(..) => Phase::Chosen,
            State::Asking(_) => Phase::Asking,
            State::Inside(_) => Phase::Inside,
        }
    }

    /// The present ticket, if there is one.
    pub(crate) fn ticket(self) -> Option<Ticket>
        ensures { result ≡ ticket_in self }
    {
        match self {
            State::Idle => None,
            State::Chosen(ticket, _) => Some(ticket),
            State::Asking(present) | State::Inside(present) => Some(present.present_ticket()),
        }
    }

    /// A chosen ticket is asked with; any other state stays.
    pub(crate) fn asks(self) -> State
        ensures { result ≡ asks_in self }
    {
        match self {
            State::Chosen(ticket, place) => State::Asking(Present::first(ticket, place)),
            State::Idle | State::Asking(_) | State::Inside(_) => self,
        }
    }

    /// With the ticket that it asks with it is inside; any other state stays.
    pub(crate) fn enters(self) -> State
        ensures { result ≡ enters_in self }
    {
        match self {
            State::Asking(present) => State::Inside(present),
            State::Idle | State::Chosen(..) | State::Inside(_) => self,
        }
    }

    /// While it is inside, its attempt is softened; any other state stays.
    pub(crate) fn softens(self) -> State
        ensures { result ≡ softens_in self }
    {
        match self {
            State::Inside(present) => State::Inside(present.soft()),
            State::Idle | State::Chosen(..) | State::Asking(_) => self,
        }
    }

    /// The node's vote is counted, where there is a ticket that it can be for.
    pub(crate) fn counts(self, node: NodeId) -> State
        ensures exact { result ≡ counts_in node self }
        ensures adds { AddsVote self node }
    {
        match self {
            State::Idle | State::Chosen(..) => self,
            State::Asking(present) => State::Asking(present.with_vote(node)),
            State::Inside(present) => State::Inside(present.with_vote(node)),
        }
    }

    /// The node is skipped, while it asks.
    pub(crate) fn skips(self, node: NodeId) -> State
        ensures { result ≡ skips_in node self }
    {
        match self {
            State::Asking(present) => State::Asking(present.without(node)),
            State::Idle | State::Chosen(..) | State::Inside(_) => self,
        }
    }
}

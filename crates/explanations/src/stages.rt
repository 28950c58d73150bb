// Where each actor stands, as its own events tell.

ghost use Rattle.std.specs.Prelude.{◌≡◌};

use lock_messages::{Actor, ClientId, Message, Mode, NodeId};
use lock_model::Heard;
use std::alloc::{AllocError, Global};
use std::fmt;
use vote_weights::{BallotList, NodeSet};
use world_model::{Effect, Event};

/// What a node does.
#[derive(Clone, Copy)]
pub enum NodePhase {
    /// It is down.
    Down,
    /// It may take a message.
    Idle,
    /// It has decided, and has yet to keep that.
    Decided,
    /// It writes what it decided to its record.
    Trying,
    /// It has yet to say its replies.
    Stored,
}

/// What a client does.
#[derive(Clone, Copy)]
pub enum ClientPhase {
    /// It is down.
    Down,
    /// It is at rest.
    Idle,
    /// It has chosen an attempt, and has yet to keep its number.
    Chosen,
    /// It writes the attempt's number to its record.
    Trying,
    /// It asks nodes for their votes.
    Asking,
    /// It is inside.
    Inside,
}

/// Where a client stands: what it does, and what there is of its last attempt.
#[derive(Clone, Copy)]
pub struct ClientStage {
    pub phase: ClientPhase,
    pub mode: Mode,
    pub place: u8,
    pub granted: NodeSet,
    pub softened: bool,
}

impl fmt::Display for NodePhase {
    fn fmt<W: fmt::Write>(&self, f: &mut fmt::Formatter<W>) -> fmt::Result {
        f.write_str(match self {
            NodePhase::Down => "is down",
            NodePhase::Idle => "is idle",
            NodePhase::Decided => "has not tried its decision yet",
            NodePhase::Trying => "has not kept its decision yet",
            NodePhase::Stored => "has not said its replies yet",
        })
    }
}

impl fmt::Display for ClientStage {
    fn fmt<W: fmt::Write>(&self, f: &mut fmt::Formatter<W>) -> fmt::Result {
        f.write_str(match self.phase {
            ClientPhase::Down => "is down",
            ClientPhase::Idle => "is idle",
            ClientPhase::Chosen => "has not tried its attempt yet",
            ClientPhase::Trying => "has not kept its attempt yet",
            ClientPhase::Asking => "is asking, and not inside",
            ClientPhase::Inside if self.softened => "is inside, and has softened",
            ClientPhase::Inside if self.mode == Mode::Read => "is inside as a reader",
            ClientPhase::Inside => "is inside as a writer",
        })
    }
}

impl NodePhase {
    /// What a node does behind its own event, which had this effect.
    fn after(self, event: &Event, effect: &Effect) -> NodePhase {
        match *event {
            Event::Try(_) => NodePhase::Trying,
            Event::Kept(_) => NodePhase::Stored,
            Event::Take(..) | Event::Switch(..) => decided_by(effect),
            Event::Say(_) | Event::Rise(..) => NodePhase::Idle,
            Event::Fall(_) => NodePhase::Down,
            Event::Begin(..)
            | Event::SayTo(..)
            | Event::Hear(..)
            | Event::Enter(_)
            | Event::Leave(_)
            | Event::Soften(_) => self,
        }
    }
}

/// What a node does behind a decision: where its record stays, it may say its replies at once.
fn decided_by(effect: &Effect) -> NodePhase {
    match *effect {
        Effect::Took(_, true) | Effect::Switched(true) => NodePhase::Decided,
        _ => NodePhase::Stored,
    }
}

impl ClientStage {
    /// A client of which nothing is known yet.
    fn new(phase: ClientPhase) -> ClientStage {
        ClientStage {
            phase,
            mode: Mode::Read,
            place: 1,
            granted: NodeSet::empty(),
            softened: false,
        }
    }

    fn within(self, phase: ClientPhase) -> ClientStage {
        ClientStage { phase, ..self }
    }

    /// The client with a vote that counted.
    fn counted(self, effect: &Effect) -> ClientStage {
        match *effect {
            Effect::Heard(Message::Grant(node, _), Heard::Counted) => ClientStage {
                granted: self.granted.with(node),
                ..self
            },
            _ => self,
        }
    }

    /// Where a client stands behind its own event, which had this effect.
    fn after(self, event: &Event, effect: &Effect) -> ClientStage {
        match *event {
            Event::Begin(_, mode, _, place) => ClientStage {
                mode,
                place,
                ..ClientStage::new(ClientPhase::Chosen)
            },
            Event::Try(_) => self.within(ClientPhase::Trying),
            Event::Kept(_) => self.within(ClientPhase::Asking),
            Event::Hear(..) => self.counted(effect),
            Event::Enter(_) => self.within(ClientPhase::Inside),
            Event::Leave(_) | Event::Rise(..) => ClientStage::new(ClientPhase::Idle),
            Event::Soften(_) => ClientStage {
                softened: true,
                ..self
            },
            Event::Fall(_) => ClientStage::new(ClientPhase::Down),
            Event::SayTo(..) | Event::Say(_) | Event::Take(..) | Event::Switch(..) => self,
        }
    }

    /// How many votes count for the client's attempt, and how many it needs.
    pub fn votes(&self, ballots: &BallotList) -> Option<(u16, u16)> {
        let ballot = ballots.ballot(self.place)?;
        let needed = match self.mode {
            Mode::Read => ballot.read(),
            Mode::Write => ballot.write(),
        };
        Some((ballot.votes_in(self.granted), needed))
    }
}

/// Where all actors stand, and how many messages were sent.
#[derive(Drop)]
pub struct Stages {
    nodes: Vec<NodePhase>,
    clients: Vec<ClientStage>,
    sent: u32,
}

impl Stages {
    /// So many nodes and clients, all down or all up.
    pub fn of(alloc: Global, nodes: u8, clients: u16, up: bool) -> Result<Stages, AllocError> {
        let node = if up { NodePhase::Idle } else { NodePhase::Down };
        let client = ClientStage::new(if up {
            ClientPhase::Idle
        } else {
            ClientPhase::Down
        });
        Ok(Stages {
            nodes: vec![in alloc; node; nodes as usize]?,
            clients: vec![in alloc; client; clients as usize]?,
            sent: 0,
        })
    }

    /// Follows an event that happened.
    pub fn follow(&mut self, event: &Event, effect: &Effect) {
        match *effect {
            Effect::Sent(..) => self.sent = self.sent.saturating_add(1),
            Effect::Said { count, .. } => self.sent = self.sent.saturating_add(count),
            _ => {}
        }
        match event.actor() {
            Actor::Node(id) => {
                let place = id.get() as usize - 1;
                if place < self.nodes.len() {
                    self.nodes[place] = self.nodes[place].after(event, effect);
                }
            }
            Actor::Client(id) => {
                let place = id.get() as usize - 1;
                if place < self.clients.len() {
                    self.clients[place] = self.clients[place].after(event, effect);
                }
            }
        }
    }

    /// Where a node stands.
    pub fn node(&self, id: NodeId) -> Option<NodePhase> {
        self.nodes.get(id.get() as usize - 1).copied()
    }

    /// Where a client stands.
    pub fn client(&self, id: ClientId) -> Option<ClientStage> {
        self.clients.get(id.get() as usize - 1).copied()
    }

    /// How many nodes there are.
    pub fn node_count(&self) -> u32 {
        self.nodes.len().clamp(0, 16) as u32
    }

    /// How many clients there are.
    pub fn client_count(&self) -> u32 {
        self.clients.len().clamp(0, 1_024) as u32
    }

    /// How many messages were sent.
    pub fn sent(&self) -> u32 {
        self.sent
    }
}

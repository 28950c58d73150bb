// Numbers of nodes, clients and attempts: each a number in a range.

ghost use Rattle.std.specs.Prelude.{◌≡◌, ℕ, ◌≤◌, SomeIff};
ghost use Rattle.lock_messages.specs.Ids.{IsNode, IsClient, IsAttempt};

use std::fmt;
use std::marker::Model;

/// The most nodes that a ballot has.
pub const MAX_NODES: u8 = 16;

/// The most clients that a service has.
pub const MAX_CLIENTS: u32 = 1_024;

/// The greatest number of an attempt.
pub const MAX_ATTEMPT: u64 = 1_000_000_000_000;

/// The number of a node: 1 to `MAX_NODES`. Prints as `n1`.
#[derive(Clone, Copy, Debug, PartialEq, Eq, Hash, PartialOrd, Ord)]
pub struct NodeId {
    number: u8,
}

impl Model for NodeId {
    ghost Value = { ℕ };

    ghost view = { λ x. x.number };

    ghost invariant = { λ x. IsNode x.number };

    ghost inverse = { λ n. record { number = n } };
}

impl NodeId {
    /// The node with this number, or `None` exactly where no node has it.
    pub fn of(number: u8) -> Option<NodeId>
        ensures { SomeIff result (IsNode number) number }
    {
        if number == 0 || number > MAX_NODES {
            return None;
        }
        Some(NodeId { number })
    }

    /// The number.
    pub fn get(self) -> u8
        ensures number { result ≡ self }
        ensures in_range { IsNode result }
    {
        self.number
    }
}

impl fmt::Display for NodeId {
    ghost use Rattle.std.specs.Prelude.{Some};
    ghost use Rattle.lock_messages.specs.Texts.{node_text};

    ghost output = { λ n. Some (node_text n) };

    fn fmt<W: fmt::Write>(&self, f: &mut fmt::Formatter<W>) -> fmt::Result {
        let number = self.number;
        write!(f, "n{number}")
    }
}

/// The number of a client: 1 to `MAX_CLIENTS`. Prints as `c1`.
#[derive(Clone, Copy, Debug, PartialEq, Eq, Hash, PartialOrd, Ord)]
pub struct ClientId {
    number: u32,
}

impl Model for ClientId {
    ghost Value = { ℕ };

    ghost view = { λ x. x.number };

    ghost invariant = { λ x. IsClient x.number };

    ghost inverse = { λ n. record { number = n } };
}

impl ClientId {
    /// The client with this number, or `None` exactly where no client has it.
    pub fn of(number: u32) -> Option<ClientId>
        ensures { SomeIff result (IsClient number) number }
    {
        if number == 0 || number > MAX_CLIENTS {
            return None;
        }
        Some(ClientId { number })
    }

    /// The number.
    pub fn get(self) -> u32
        ensures number { result ≡ self }
        ensures in_range { IsClient result }
    {
        self.number
    }
}

impl fmt::Display for ClientId {
    ghost use Rattle.std.specs.Prelude.{Some};
    ghost use Rattle.lock_messages.specs.Texts.{client_text};

    ghost output = { λ n. Some (client_text n) };

    fn fmt<W: fmt::Write>(&self, f: &mut fmt::Formatter<W>) -> fmt::Result {
        let number = self.number;
        write!(f, "c{number}")
    }
}

/// The number of a client's attempt to use a resource: 1 to `MAX_ATTEMPT`. Prints as `1`.
///
/// A client numbers its attempts from 1 on, and uses no number twice (our own rule).
#[derive(Clone, Copy, Debug, PartialEq, Eq, Hash, PartialOrd, Ord)]
pub struct Attempt {
    number: u64,
}

impl Model for Attempt {
    ghost Value = { ℕ };

    ghost view = { λ x. x.number };

    ghost invariant = { λ x. IsAttempt x.number };

    ghost inverse = { λ n. record { number = n } };
}

impl Attempt {
    /// The attempt with this number, or `None` exactly where no attempt has it.
    pub fn of(number: u64) -> Option<Attempt>
        ensures { SomeIff result (IsAttempt number) number }
    {
        if number == 0 || number > MAX_ATTEMPT {
            return None;
        }
        Some(Attempt { number })
    }

    /// The number.
    pub fn get(self) -> u64
        ensures number { result ≡ self }
        ensures in_range { IsAttempt result }
    {
        self.number
    }
}

impl fmt::Display for Attempt {
    ghost use Rattle.std.specs.Prelude.{Some};
    ghost use Rattle.std.specs.Fmt.{decimal};

    ghost output = { λ n. Some (decimal n) };

    fn fmt<W: fmt::Write>(&self, f: &mut fmt::Formatter<W>) -> fmt::Result {
        let number = self.number;
        write!(f, "{number}")
    }
}

/// Who acts: a node or a client. Prints as `n1` or `c1`.
#[derive(Clone, Copy, Debug, PartialEq, Eq, Hash, PartialOrd, Ord)]
pub enum Actor {
    Node(NodeId),
    Client(ClientId),
}

impl fmt::Display for Actor {
    ghost use Rattle.std.specs.Prelude.{Some};
    ghost use Rattle.lock_messages.specs.Texts.{actor_text};

    ghost output = { λ a. Some (actor_text a) };

    fn fmt<W: fmt::Write>(&self, f: &mut fmt::Formatter<W>) -> fmt::Result {
        match self {
            Actor::Node(node) => write!(f, "{node}"),
            Actor::Client(client) => write!(f, "{client}"),
        }
    }
}

// Worlds in which all are down and nothing is kept, and a few values.

use lock_messages::{Actor, Attempt, Mode, ResourceName, Ticket};
use lock_model::Problem;
use std::alloc::Global;
use test_outcomes::{Failure, client_id, node_id};
use test_support::{ballots_of, new_world};
use vote_weights::BallotList;
use world_machine::World;

/// An actor of a table's row: a node of three, or a client of four. The last two are strangers to each world.
#[derive(Clone, Copy)]
pub(crate) enum Who {
    N1,
    N2,
    N3,
    C1,
    C2,
    C3,
    C4,
    FourthNode,
    FifthClient,
}

impl Who {
    pub(crate) fn actor(self) -> Actor {
        match self {
            Who::N1 => Actor::Node(node_id(1)),
            Who::N2 => Actor::Node(node_id(2)),
            Who::N3 => Actor::Node(node_id(3)),
            Who::C1 => Actor::Client(client_id(1)),
            Who::C2 => Actor::Client(client_id(2)),
            Who::C3 => Actor::Client(client_id(3)),
            Who::C4 => Actor::Client(client_id(4)),
            Who::FourthNode => Actor::Node(node_id(4)),
            Who::FifthClient => Actor::Client(client_id(5)),
        }
    }
}

/// The first ticket of c4, to read `a`.
pub(crate) fn fourth_ticket() -> Ticket {
    Ticket {
        client: client_id(4),
        attempt: Attempt::of(1).unwrap(),
        mode: Mode::Read,
        resource: ResourceName::of(b"a").unwrap(),
    }
}

/// How a world starts.
#[derive(Clone, Copy)]
pub(crate) enum Start {
    /// Three nodes with a vote each, of which two read and two write, under problem 1.
    ThreeNodes,
    /// One node, whose vote is enough, under problem 1.
    OneNode,
    /// The same under problem 2.
    OneNodeUnderSecond,
}

impl Start {
    fn ballots(self) -> Result<BallotList, Failure> {
        match self {
            Start::ThreeNodes => ballots_of(&[1, 1, 1], 2, 2),
            Start::OneNode | Start::OneNodeUnderSecond => ballots_of(&[1], 1, 1),
        }
    }

    fn problem(self) -> Problem {
        match self {
            Start::ThreeNodes | Start::OneNode => Problem::First,
            Start::OneNodeUnderSecond => Problem::Second,
        }
    }

    /// The world that starts so.
    pub(crate) fn world(self, alloc: Global) -> Result<World, Failure> {
        match self.ballots() {
            Ok(ballots) => new_world(alloc, ballots, self.problem(), 4),
            Err(failure) => Err(failure),
        }
    }
}

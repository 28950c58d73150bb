// The actors of a world, whose messages may be forgotten.

ghost use Rattle.std.specs.Prelude.{◌≡◌, ◌≤◌, ◌∷◌, [], length, OnOk, OnErr};
ghost use Rattle.world_model.specs.declared.TheConstants.{MAX_MESSAGES};
ghost use Rattle.world_model.specs.ExactWorlds.{numbered, step};
ghost use Rattle.world_model.specs.StepsOf.{Does};
ghost use Rattle.world_machine.specs.Listing.{kept_bytes, Tells};
ghost use Rattle.world_machine.specs.Machines.{with_sent};

use crate::World;
use crate::listing::{client_bytes_at, node_bytes_at};
use crate::stepping::{message_at, take_step};
use lock_messages::{Actor, Message};
use std::alloc::{AllocError, Global};
use std::marker::Model;
use vote_weights::BallotList;
use world_actors::{WorldClient, WorldNode};
use world_model::{Effect, Event, StepFault};

/// The actors of a world, and a list of messages that can be forgotten.
///
/// They take the same events as a `World`. Nothing is promised of how they stand to each other, because messages can be
/// forgotten, and brought though nobody sent them: a caller who does so has to know why it may.
#[derive(Drop)]
pub struct Actors {
    alloc: Global,
    ballots: BallotList,
    nodes: Vec<WorldNode>,
    clients: Vec<WorldClient>,
    sent: Vec<Message>,
}

impl Model for Actors {
    ghost use Rattle.world_model.specs.declared.exact.ExactWorld.{ExactWorld};
    ghost use Rattle.world_machine.specs.Machines.{world_view, IsInOrder};

    ghost Value = { ExactWorld };

    ghost view = { λ w. world_view w.ballots w.nodes.items w.clients.items w.sent.items };

    ghost invariant = { λ w. IsInOrder w.ballots w.nodes.items w.clients.items w.sent.items };
}

impl Actors {
    /// The actors of a world, with its messages. It takes no memory.
    pub fn of(world: World) -> Actors
        requires { Unit {0} }
        ensures { result ≡ world }
    {
        Actors {
            alloc: world.alloc,
            ballots: world.ballots,
            nodes: world.nodes,
            clients: world.clients,
            sent: world.sent,
        }
    }

    /// Takes one event as `World::step` does, and returns its effect. A fault changes nothing.
    pub fn step(&mut self, event: &Event) -> Result<Effect, StepFault>
        requires { Unit {0} }
        ensures { Does event.now (step self.old event.now) self.old result self.new }
    {
        take_step(
            &self.ballots,
            &mut self.nodes,
            &mut self.clients,
            &mut self.sent,
            event,
        )
    }

    /// Forgets all messages. It keeps the list's memory.
    pub fn forget_messages(&mut self)
        requires { Unit {0} }
        ensures { self.new ≡ with_sent self.old [] }
    {
        self.sent.clear();
    }

    /// Forgets all messages, and puts this one in their place, whether or not somebody sent it.
    ///
    /// The only error is that there is no memory. Then the messages are forgotten.
    pub fn bring(&mut self, message: Message) -> Result<(), AllocError>
        requires { Unit {0} }
        ensures brought { OnOk result (self.new ≡ with_sent self.old (message ∷ [])) }
        ensures none { OnErr result (self.new ≡ with_sent self.old []) }
    {
        self.forget_messages();
        match self.sent.push(message) {
            Ok(()) => Ok(()),
            Err(_) => Err(AllocError),
        }
    }

    /// The message of this number in the list, from 1 on. One look-up.
    pub fn sent(&self, number: u32) -> Option<Message>
        ensures { result ≡ numbered self.now.sent number }
    {
        message_at(&self.sent, number)
    }

    /// Tells that the list has no more messages than it may. It computes nothing.
    pub fn room(&self)
        ensures { length self.now.sent ≤ MAX_MESSAGES }
    {
        let _count = self.sent.len();
    }

    /// The record of what the actor has kept.
    ///
    /// Errors: there is no such actor (601), want of memory (613).
    pub fn kept_bytes(&self, who: Actor) -> Result<Vec<u8>, StepFault>
        ensures { Tells (λ v. v.items) (kept_bytes who self.now) result }
    {
        match who {
            Actor::Node(id) => node_bytes_at(self.alloc, &self.nodes, id),
            Actor::Client(id) => client_bytes_at(self.alloc, &self.clients, id),
        }
    }
}

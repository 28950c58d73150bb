// The world: its actors and all messages ever sent.

ghost use Rattle.std.specs.Prelude.{◌≡◌, ◌≤◌, ◌∷◌, [], length, take, IfOk, IfSome, OnOk, IsOkUnless};
ghost use Rattle.lock_messages.specs.declared.tickets.Ticket.{Ticket as TicketValue};
ghost use Rattle.lock_model.specs.Decisions.{Among};
ghost use Rattle.lock_model.specs.Stations.{Cause};
ghost use Rattle.vote_weights.specs.declared.lists.TheConstants.{MAX_BALLOTS};
ghost use Rattle.world_model.specs.Exclusion.{IsExclusive};
ghost use Rattle.world_model.specs.ExactWorlds.{numbered, step};
ghost use Rattle.world_model.specs.Forgetting.{forget, setting_of, IsSound};
ghost use Rattle.world_model.specs.StepsOf.{Does, Runs};
ghost use Rattle.world_model.specs.Views.{inside, waiting, holding, ticket_inside};
ghost use Rattle.world_model.specs.Worlds.{Happens, Run};
ghost use Rattle.world_machine.specs.Doing.{taken_of};
ghost use Rattle.world_machine.specs.Keeping.{KeepsRecords};
ghost use Rattle.world_machine.specs.Listing.{has_actor, kept_bytes, Tells, AreInside, IsInsideBy, AreWaiting, AreHolding};

use crate::keeping::{see_last, see_records};
use crate::listing::{
    Claims, client_bytes_at, node_bytes_at, ticket_inside, tickets_at, tickets_inside,
};
use crate::stepping::{message_at, take_step};
use lock_messages::{Actor, ClientId, Message, Mode, NodeId, ResourceName, Ticket};
use std::alloc::Global;
use std::marker::Model;
use vote_weights::BallotList;
use world_actors::{WorldClient, WorldNode};
use world_model::laws::{exact_steps_are_allowed, lists_are_the_sets};
use world_model::{Effect, Event, StepFault};

/// A world: its nodes, its clients and all messages ever sent.
///
/// Contracts see it as an `ExactWorld`. Each is sound, as `world_model` has it: what opens one is, and
/// each step keeps it.
#[derive(Drop)]
pub struct World {
    pub(crate) alloc: Global,
    pub(crate) ballots: BallotList,
    pub(crate) nodes: Vec<WorldNode>,
    pub(crate) clients: Vec<WorldClient>,
    pub(crate) sent: Vec<Message>,
}

impl Model for World {
    ghost use Rattle.world_model.specs.declared.exact.ExactWorld.{ExactWorld};
    ghost use Rattle.world_machine.specs.Machines.{world_view, IsWorld};

    ghost Value = { ExactWorld };

    ghost view = { λ w. world_view w.ballots w.nodes.items w.clients.items w.sent.items };

    ghost invariant = { λ w. IsWorld w.ballots w.nodes.items w.clients.items w.sent.items };
}

impl World {
    /// Takes one event, and answers its effect.
    ///
    /// A fault changes nothing. It is the one of the lowest number that applies: no such node or client
    /// (601), down (602), up (603), another phase (604), not stored (605), nothing to say (606), no such
    /// message (607), not addressed (608), no quorum (609), attempts spent (610), nothing tried (611),
    /// the list of messages full (612), and behind all others want of memory (613). 612 comes only where
    /// what is said would pass `MAX_MESSAGES`, and then none of it is sent.
    ///
    /// An event costs what its actor does: `Take` what a decision over the node's entries costs, `Try`
    /// and `Rise` of a node a copy of its record, `Say` one of the replies, every other a few steps.
    pub fn step(&mut self, event: &Event) -> Result<Effect, StepFault>
        requires { Unit {0} }
        ensures exact { Does event.now (step self.old event.now) self.old result self.new }
        // It is one of the steps of which the exclusion theorem speaks, among the same actors.
        ensures allowed { OnOk result (Happens (setting_of self.old) (forget self.old) event.now (forget self.new)) }
        ensures setting { setting_of self.new ≡ setting_of self.old }
    {
        exact_steps_are_allowed();
        take_step(
            &self.ballots,
            &mut self.nodes,
            &mut self.clients,
            &mut self.sent,
            event,
        )
    }

    /// Takes the events in order, up to the first that is refused.
    ///
    /// Answers how many events there were, where all were taken; else how many were taken before the
    /// refused one, and its refusal as `step` gives it. The world is as it was after those taken. It
    /// costs what their steps cost.
    pub fn run(&mut self, events: &[Event]) -> Result<usize, (usize, StepFault)>
        requires { Unit {0} }
        ensures exact { Runs events.now self.old result self.new }
        // The events that were taken are a run, of which the exclusion theorem speaks.
        ensures allowed { Run (setting_of self.old) (forget self.old) (take (taken_of result) events.now) (forget self.new) }
        ensures setting { setting_of self.new ≡ setting_of self.old }
    {
        for (taken, event) in events.iter().enumerate() {
            if let Err(fault) = self.step(event) {
                return Err((taken, fault));
            }
        }
        Ok(events.len())
    }

    /// The message of this number, from 1 on; `None` exactly where none was sent under it. One look-up.
    pub fn sent(&self, number: u32) -> Option<Message>
        ensures { result ≡ numbered self.now.sent number }
    {
        message_at(&self.sent, number)
    }

    /// Whether there is such an actor. One comparison.
    pub fn has(&self, who: Actor) -> bool
        ensures { result ≡ has_actor self.now who }
    {
        match who {
            Actor::Node(id) => id.get() as usize <= self.nodes.len(),
            Actor::Client(id) => id.get() as usize <= self.clients.len(),
        }
    }

    /// Tells what holds of every world: it is sound, so a writer inside a resource is there alone, and in
    /// every station of every node each reader that waits has a cause; and it has no more ballots than a
    /// list may have. It computes nothing.
    pub fn soundness(&self)
        ensures sound { IsSound self.now }
        ensures exclusive { IsExclusive (forget self.now) }
        ensures few_ballots { length self.now.ballots ≤ MAX_BALLOTS }
    {
        lists_are_the_sets();
        let _actors = self.nodes.len();
        let _ballots = self.ballots.count();
    }

    /// Tells that each node has kept a record that can be read again, and that there are no more nodes and
    /// clients than have numbers, as it is in each world. It goes over the nodes, and changes nothing.
    pub fn keeping(&self)
        ensures { KeepsRecords self.now }
    {
        let _nodes = self.ballots.nodes();
        see_records(&self.nodes);
        see_last(&self.clients);
    }

    /// The tickets of the clients that are inside the resource, in the order of the clients. A writer
    /// among them is the only one.
    ///
    /// It goes over all clients. The only error is want of memory (613).
    pub fn inside(&self, resource: &ResourceName) -> Result<Vec<Ticket>, StepFault>
        ensures inside { IfOk result (λ tickets. tickets.items ≡ inside resource.now self.now) }
        ensures set { IfOk result (λ tickets. AreInside (forget self.now) resource.now tickets.items) }
        ensures alone { IfOk result (λ tickets. (t : TicketValue) → Among t tickets.items → t.mode ≡ Mode.Write → tickets.items ≡ t ∷ []) }
        ensures exclusive { IsExclusive (forget self.now) }
        ensures memory { IsOkUnless result StepFault.Memory }
    {
        lists_are_the_sets();
        let Ok(tickets) = tickets_inside(self.alloc, &self.clients, resource) else {
            return Err(StepFault::Memory);
        };
        Ok(tickets)
    }

    /// The ticket of a client that is inside, whatever the resource, which is the client's own; `None`
    /// exactly where the client is not inside, or there is no such client. One look-up, without memory.
    pub fn ticket_inside(&self, client: ClientId) -> Option<Ticket>
        ensures ticket { result ≡ ticket_inside client self.now }
        ensures set { IsInsideBy (forget self.now) client result }
        ensures own { IfSome result (λ t. t.client ≡ client) }
    {
        ticket_inside(&self.clients, client)
    }

    /// The tickets that wait for the node's vote for the resource, in the station that the node has
    /// kept, in the order of its entries. For each reader among them there is a cause there: a writer holds
    /// that vote or, under problem 2, waits for it too.
    ///
    /// Errors: there is no such node (601), want of memory (613).
    pub fn waiting(&self, node: NodeId, resource: &ResourceName) -> Result<Vec<Ticket>, StepFault>
        ensures waiting { Tells (λ v. v.items) (waiting node resource.now self.now) result }
        ensures set { IfOk result (λ tickets. AreWaiting ((forget self.now).nodes node).kept resource.now tickets.items) }
        ensures caused { IfOk result (λ tickets. (t : TicketValue) → Among t tickets.items → t.mode ≡ Mode.Read → Cause ((forget self.now).nodes node).kept Mode.Read resource.now) }
    {
        lists_are_the_sets();
        tickets_at(self.alloc, &self.nodes, node, Claims::Waiting, resource)
    }

    /// The tickets that hold the node's vote for the resource, in the station that the node has kept,
    /// in the order of its entries.
    ///
    /// Errors: there is no such node (601), want of memory (613).
    pub fn holding(&self, node: NodeId, resource: &ResourceName) -> Result<Vec<Ticket>, StepFault>
        ensures holding { Tells (λ v. v.items) (holding node resource.now self.now) result }
        ensures set { IfOk result (λ tickets. AreHolding ((forget self.now).nodes node).kept resource.now tickets.items) }
    {
        lists_are_the_sets();
        tickets_at(self.alloc, &self.nodes, node, Claims::Holding, resource)
    }

    /// The record of what the actor has kept.
    ///
    /// Errors: there is no such actor (601), want of memory (613).
    pub fn kept_bytes(&self, who: Actor) -> Result<Vec<u8>, StepFault>
        ensures { Tells (λ v. v.items) (kept_bytes who self.now) result }
    {
        match who {
            Actor::Node(id) => node_bytes_at(self.alloc, &self.nodes, id),
            Actor::Client(id) => client_bytes_at(self.alloc, &self.clients, id),
        }
    }
}

// The way in of a client: what has to happen, found by going ahead on a copy of the world.

ghost use Rattle.std.specs.Prelude.{◌≡◌, true, false, length, ◌∷◌, ◌++◌, [], ◌<◌, ◌≤◌, ◌⊎◌, ℕ, None, Err, Some, IfSome, IfOk, IfErr, OnOk, IsTrue, ◌↔◌};
ghost use Rattle.std.specs.List.{list_any};
ghost use Rattle.lock_messages.specs.declared.messages.Message.{Message as MessageValue};
ghost use Rattle.lock_messages.specs.declared.ids.TheConstants.{MAX_NODES, MAX_CLIENTS};
ghost use Rattle.lock_model.specs.Ballots.{HasPlace, IsEnough, ballot_at, node_count};
ghost use Rattle.vote_weights.specs.Sets.{has_node};
ghost use Rattle.world_model.specs.Advice.{can_be_won, coming_up, is_grant, next_move};
ghost use Rattle.world_model.specs.ExactWays.{IsStuck, StopsAt, SetsOut, LeadsIn, HasAttempt, IsNoWay, every_node};
ghost use Rattle.world_model.specs.ExactWorlds.{numbered, next_number, ran, step};
ghost use Rattle.world_model.specs.Forgetting.{client_of, forget, setting_of};
ghost use Rattle.world_model.specs.Ways.{IsPossible, IsUp, HasActor};
ghost use Rattle.world_model.specs.declared.ways.Want.{Want as WantValue};
ghost use Rattle.world_model.specs.Worlds.{Present, Asking};
ghost use Rattle.world_machine.specs.Going.{HasTaken, HasTakenAll, HasMade, HasArrived, HasRaised, IsGentleWay, needed_events, IsNodeActor, IsClientActor, IsDownThere, falling_and_rising, is_one_of, HasAttemptOf, AttemptIs};

use crate::World;
use crate::advising::{grant_for, next_move, nodes_to_win};
use lock_messages::{Actor, ClientId, MAX_ATTEMPT, NodeId};
use vote_weights::{Ballot, BallotList, NodeSet};
use world_actors::WorldClient;
use world_model::{Age, Event, Move, StepFault, Want};
use world_opening::{client_at, node_at};

/// A copy of a world that goes ahead of it, and the events by which it got there.
#[derive(Drop)]
struct Ahead {
    world: World,
    events: Vec<Event>,
}

/// The number of the message by which the node granted what the client asks for, if there is one.
fn number_to_hear(world: &World, want: &Want, node: NodeId) -> Option<u32>
    ensures some { IfSome result (λ k. (m : MessageValue) × (p : Present) × (((forget world.now).clients want.now.client).phase ≡ Asking p) × (numbered world.now.sent k ≡ Some m) × (is_grant node p.ticket m ≡ true)) }
    ensures none { result ≡ None → (p : Present) → ((forget world.now).clients want.now.client).phase ≡ Asking p → list_any (is_grant node p.ticket) world.now.sent ≡ false }
{
    grant_for(&world.clients, &world.sent, want.client, node)
}

/// The number that the next message gets.
fn next_number(world: &World) -> u32
    ensures { result ≡ next_number world.now }
{
    world.sent.len() as u32 + 1
}

/// One event more. The only error is want of memory.
fn note(events: &mut Vec<Event>, event: Event) -> Result<(), StepFault>
    ensures noted { OnOk result (events.new.items ≡ events.old.items ++ event ∷ []) }
    ensures memory { IfErr result (λ f. f ≡ StepFault.Memory) }
{
    match events.extend_from_slice(&[event]) {
        Ok(()) => Ok(()),
        Err(_) => Err(StepFault::Memory),
    }
}

/// Whether the node of this number is up, or not there.
fn is_node_up(world: &World, id: NodeId) -> bool
    ensures up { result ≡ true → HasActor (setting_of world.now) (Actor.Node id) → IsUp (forget world.now) (Actor.Node id) }
    ensures down { result ≡ false → IsDownThere world.now (Actor.Node id) }
{
    let index = id.get() as usize - 1;
    index >= world.nodes.len() || world.nodes[index].is_up()
}

/// Whether the client of this number is up, or not there.
fn is_client_up(world: &World, id: ClientId) -> bool
    ensures up { result ≡ true → HasActor (setting_of world.now) (Actor.Client id) → IsUp (forget world.now) (Actor.Client id) }
    ensures down { result ≡ false → IsDownThere world.now (Actor.Client id) }
{
    let index = id.get() as usize - 1;
    index >= world.clients.len() || world.clients[index].is_up()
}

/// Whether the client has an attempt left: what it has kept is below the greatest, or it asks already for what
/// is wanted, or is inside so.
fn has_attempt(client: &WorldClient, want: &Want) -> bool
    ensures { IsTrue result ↔ HasAttemptOf want.now (client_of client.now.part) }
{
    client.kept() < MAX_ATTEMPT || (client.is_up() && client.beginning(want).is_none())
}

/// Whether the client that wants in has an attempt left; `None` where there is no such client.
fn attempt_of(clients: &[WorldClient], want: &Want) -> Option<bool>
    ensures { AttemptIs want.now (numbered clients.now want.now.client) result }
{
    let index = want.client.get() as usize - 1;
    if index >= clients.len() {
        return None;
    }
    Some(has_attempt(&clients[index], want))
}

/// The ballot at the wanted place.
fn ballot_of(ballots: &BallotList, want: &Want) -> Result<Ballot, StepFault>
    ensures ballot { IfOk result (λ b. HasPlace ballots.now want.now.place × (b ≡ ballot_at ballots.now want.now.place)) }
    ensures none { IfErr result (λ f. (f ≡ StepFault.NoSuchPlace) × ¬ (HasPlace ballots.now want.now.place)) }
{
    match ballots.ballot(want.place) {
        Some(ballot) => Ok(ballot),
        None => Err(StepFault::NoSuchPlace),
    }
}

/// How many nodes there are.
fn node_total(world: &World) -> usize
    ensures total { result ≡ node_count world.now.ballots }
    ensures few { result ≤ MAX_NODES }
{
    world.ballots.nodes() as usize
}

/// How many clients there are.
fn client_total(world: &World) -> usize
    ensures total { result ≡ length world.now.clients }
    ensures few { result ≤ MAX_CLIENTS }
{
    world.keeping();
    world.clients.len()
}

/// What a client needs to have an attempt left: nothing, to rise, or to fall and to rise.
#[derive(Clone, Copy)]
enum Need {
    Nothing,
    Rise,
    FallAndRise,
}

/// What the client that wants in needs before it can begin.
fn need_of(world: &World, want: &Want) -> Need
    ensures { needed_events want.now result ≡ coming_up want.now ((forget world.now).clients want.now.client).phase }
{
    let index = want.client.get() as usize - 1;
    if index >= world.clients.len() || !world.clients[index].is_up() {
        return Need::Rise;
    }
    if world.clients[index].must_fall(want) {
        Need::FallAndRise
    } else {
        Need::Nothing
    }
}

impl Ahead {
    /// Takes one event more. The only error of its own is want of memory.
    fn take(&mut self, event: Event) -> Result<(), StepFault>
        ensures taken { OnOk result (HasTaken self.old.world self.old.events.items event self.new.world self.new.events.items) }
        ensures refused { IfErr result (λ f. (step self.old.world event ≡ Err f) ⊎ (f ≡ StepFault.Memory)) }
    {
        self.world.step(&event)?;
        note(&mut self.events, event)
    }

    /// A move of one event.
    fn alone(&mut self, event: Event) -> Result<(), StepFault>
        ensures made { (a : WantValue) → OnOk result (HasMade a self.old.world self.old.events.items (Move.Alone event) self.new.world self.new.events.items) }
        ensures stuck { (a : WantValue) → IfErr result (λ f. IsStuck a self.old.world (Move.Alone event) f ⊎ (f ≡ StepFault.Memory)) }
    {
        self.take(event)
    }

    /// The client says what it has to say to the node, which takes it.
    fn hand(&mut self, client: ClientId, node: NodeId) -> Result<(), StepFault>
        ensures made { (a : WantValue) → OnOk result (HasMade a self.old.world self.old.events.items (Move.Hand client node) self.new.world self.new.events.items) }
        ensures stuck { (a : WantValue) → IfErr result (λ f. IsStuck a self.old.world (Move.Hand client node) f ⊎ (f ≡ StepFault.Memory)) }
    {
        let number = next_number(&self.world);
        match self.take(Event::SayTo(client, node)) {
            Ok(()) => self.take(Event::Take(node, number)),
            Err(fault) => Err(fault),
        }
    }

    /// The client that wants in hears the node's Grant.
    fn hear(&mut self, want: &Want, node: NodeId) -> Result<(), StepFault>
        ensures made { OnOk result (HasMade want.now self.old.world self.old.events.items (Move.HearFrom node) self.new.world self.new.events.items) }
        ensures stuck { IfErr result (λ f. IsStuck want.now self.old.world (Move.HearFrom node) f ⊎ (f ≡ StepFault.Memory)) }
    {
        match number_to_hear(&self.world, want, node) {
            Some(number) => self.take(Event::Hear(want.client, number)),
            None => Err(StepFault::NoSuchMessage),
        }
    }

    /// Makes one move: its event, or its two.
    fn make(&mut self, want: &Want, next: &Move) -> Result<(), StepFault>
        ensures made { OnOk result (HasMade want.now self.old.world self.old.events.items next.now self.new.world self.new.events.items) }
        ensures stuck { IfErr result (λ f. IsStuck want.now self.old.world next.now f ⊎ (f ≡ StepFault.Memory)) }
    {
        match *next {
            Move::Alone(event) => self.alone(event),
            Move::Hand(client, node) => self.hand(client, node),
            Move::HearFrom(node) => self.hear(want, node),
        }
    }

    /// Makes the next moves, as long as there is one: then the client is inside, where it can get in by the
    /// votes of these nodes.
    fn go_in(&mut self, want: &Want, chosen: NodeSet) -> Result<(), StepFault>
        requires { SetsOut (has_node chosen) want.now self.old.world }
        ensures arrived { OnOk result (HasArrived (has_node chosen) want.now self.old.world self.old.events.items self.new.world self.new.events.items) }
        ensures stops { IfErr result (λ f. StopsAt (has_node chosen) want.now self.old.world f ⊎ (f ≡ StepFault.Memory)) }
    {
        self.world.soundness();
        loop {
            let Some(next) = self.world.next_move(chosen, want) else {
                return Ok(());
            };
            if let Err(fault) = self.make(want, &next) {
                return Err(fault);
            }
        }
    }

    /// The client loses what it has chosen, and is at rest.
    fn fall_and_rise(&mut self, id: ClientId) -> Result<(), StepFault>
        ensures taken { OnOk result (HasTakenAll self.old.world self.old.events.items (falling_and_rising id) self.new.world self.new.events.items) }
        ensures refused { IfErr result (λ f. ((ran (falling_and_rising id) self.old.world).refused ≡ Some f) ⊎ (f ≡ StepFault.Memory)) }
    {
        match self.take(Event::Fall(Actor::Client(id))) {
            Ok(()) => self.take(Event::Rise(Actor::Client(id), Age::Old)),
            Err(fault) => Err(fault),
        }
    }

    /// The client that wants in comes up, with an attempt left: it rises, or loses the greatest attempt, where
    /// it has chosen that for something else.
    fn come_up(&mut self, want: &Want) -> Result<(), StepFault>
        ensures up { OnOk result (HasTakenAll self.old.world self.old.events.items (coming_up want.now ((forget self.old.world).clients want.now.client).phase) self.new.world self.new.events.items) }
        ensures refused { IfErr result (λ f. ((ran (coming_up want.now ((forget self.old.world).clients want.now.client).phase) self.old.world).refused ≡ Some f) ⊎ (f ≡ StepFault.Memory)) }
    {
        match need_of(&self.world, want) {
            Need::Nothing => Ok(()),
            Need::Rise => self.take(Event::Rise(Actor::Client(want.client), Age::Old)),
            Need::FallAndRise => self.fall_and_rise(want.client),
        }
    }

    /// The way in by the votes of the nodes that can be won.
    fn lead(mut self, want: &Want, chosen: NodeSet) -> Result<Vec<Event>, StepFault>
        requires start { self.events.items ≡ [] }
        requires may { IsPossible (setting_of self.world) want.now × HasAttempt (forget self.world) want.now }
        requires won { (n : ℕ) → has_node chosen n ≡ can_be_won (setting_of self.world) want.now (forget self.world) n }
        requires enough { IsEnough (ballot_at self.world.ballots want.now.place) want.now.mode (has_node chosen) }
        ensures inside { IfOk result (λ events. LeadsIn self.world want.now events.items) }
        ensures gentle { IfOk result (λ events. IsGentleWay self.world want.now events.items) }
        ensures refused { IfErr result (IsNoWay self.world want.now) }
    {
        self.world.soundness();
        if let Err(fault) = self.come_up(want) {
            return Err(fault);
        }
        match self.go_in(want, chosen) {
            Ok(()) => Ok(self.events),
            Err(fault) => Err(fault),
        }
    }

    /// The way in by the votes of all nodes, once all have risen.
    fn lead_all(mut self, want: &Want) -> Result<Vec<Event>, StepFault>
        requires start { self.events.items ≡ [] }
        requires may { IsPossible (setting_of self.world) want.now × HasAttempt (forget self.world) want.now }
        ensures inside { IfOk result (λ events. LeadsIn self.world want.now events.items) }
        ensures refused { IfErr result (IsNoWay self.world want.now) }
    {
        self.world.soundness();
        if let Err(fault) = self.come_up(want) {
            return Err(fault);
        }
        if let Err(fault) = self.raise_nodes() {
            return Err(fault);
        }
        if let Err(fault) = self.raise_clients() {
            return Err(fault);
        }
        let every = every_node(&self.world);
        match self.go_in(want, every) {
            Ok(()) => Ok(self.events),
            Err(fault) => Err(fault),
        }
    }

    /// A node that is down rises with what it has kept.
    fn raise_node(&mut self, id: NodeId) -> Result<(), StepFault>
        ensures raised { OnOk result (HasRaised self.old.world self.old.events.items self.new.world self.new.events.items (λ w. w ≡ Actor.Node id)) }
        ensures memory { IfErr result (λ f. f ≡ StepFault.Memory) }
    {
        self.world.soundness();
        if is_node_up(&self.world, id) {
            return Ok(());
        }
        self.take(Event::Rise(Actor::Node(id), Age::Old))
    }

    /// A client that is down rises with what it has kept.
    fn raise_client(&mut self, id: ClientId) -> Result<(), StepFault>
        ensures raised { OnOk result (HasRaised self.old.world self.old.events.items self.new.world self.new.events.items (λ w. w ≡ Actor.Client id)) }
        ensures memory { IfErr result (λ f. f ≡ StepFault.Memory) }
    {
        self.world.soundness();
        if is_client_up(&self.world, id) {
            return Ok(());
        }
        self.take(Event::Rise(Actor::Client(id), Age::Old))
    }

    /// All nodes that are down rise.
    fn raise_nodes(&mut self) -> Result<(), StepFault>
        ensures raised { OnOk result (HasRaised self.old.world self.old.events.items self.new.world self.new.events.items IsNodeActor) }
        ensures memory { IfErr result (λ f. f ≡ StepFault.Memory) }
    {
        self.world.soundness();
        let count = node_total(&self.world);
        for place in 0..count {
            if let Err(fault) = self.raise_node(node_at(place)) {
                return Err(fault);
            }
        }
        Ok(())
    }

    /// All clients that are down rise.
    fn raise_clients(&mut self) -> Result<(), StepFault>
        ensures raised { OnOk result (HasRaised self.old.world self.old.events.items self.new.world self.new.events.items IsClientActor) }
        ensures memory { IfErr result (λ f. f ≡ StepFault.Memory) }
    {
        self.world.soundness();
        let count = client_total(&self.world);
        for place in 0..count {
            if let Err(fault) = self.raise_client(client_at(place)) {
                return Err(fault);
            }
        }
        Ok(())
    }
}

/// The nodes of so many.
fn all_nodes(count: usize) -> NodeSet
    requires { count ≤ MAX_NODES }
    ensures { (n : ℕ) → has_node result n ≡ is_one_of count n }
{
    let mut set = NodeSet::empty();
    for place in 0..count {
        set = set.with(node_at(place));
    }
    set
}

/// All nodes of the world.
fn every_node(world: &World) -> NodeSet
    ensures { (n : ℕ) → has_node result n ≡ every_node (setting_of world.now) n }
{
    all_nodes(node_total(world))
}

impl World {
    /// The next move on the way in, where the votes of these nodes are to be won.
    fn next_move(&self, chosen: NodeSet, want: &Want) -> Option<Move>
        ensures { result ≡ next_move (setting_of self.now) (has_node chosen) want.now (forget self.now) }
    {
        next_move(
            &self.ballots,
            &self.nodes,
            &self.clients,
            &self.sent,
            chosen,
            want,
        )
    }

    /// The nodes that can be won.
    fn nodes_to_win(&self, want: &Want) -> NodeSet
        ensures { (n : ℕ) → has_node result n ≡ can_be_won (setting_of self.now) want.now (forget self.now) n }
    {
        nodes_to_win(&self.ballots, &self.nodes, &self.clients, &self.sent, want)
    }

    /// The ballot of the place, where there is such a client, with an attempt left, and such a place; or why not.
    fn may_want(&self, want: &Want) -> Result<Ballot, StepFault>
        ensures may { IfOk result (λ b. IsPossible (setting_of self.now) want.now × HasAttempt (forget self.now) want.now × (b ≡ ballot_at self.now.ballots want.now.place)) }
        ensures refused { IfErr result (IsNoWay self.now want.now) }
    {
        match attempt_of(&self.clients, want) {
            Some(true) => ballot_of(&self.ballots, want),
            Some(false) => Err(StepFault::AttemptsSpent),
            None => Err(StepFault::UnknownActor),
        }
    }

    /// A way in: events that are taken from this world on, one after the other, and end with the client inside as
    /// it wants to be. A caller who asks why nobody gets in gets what has to happen.
    ///
    /// Where the nodes that can be won have votes enough, and the client's chosen attempt, if it has one, is below
    /// the greatest, nobody is disturbed by them: of the others nobody begins, enters, softens, falls or rises, and
    /// who is down does nothing. A node can be won that is up, and at which no ticket of another client that is
    /// down stands in the way: one for the resource, where one of the two is a writer's. Else all that are down
    /// rise first.
    ///
    /// Errors, of which the first that applies is answered: there is no such client (601); no attempt is left
    /// to it (610); there is no ballot at the place (614); the list of messages may lack the room for what the
    /// way says (612), and only where what winning all nodes may say, `load`, goes past `MAX_MESSAGES`; want of
    /// memory (613). The world is as it was.
    ///
    /// It makes a copy of the world, and for each move goes over the nodes, at each over the clients, and over the
    /// messages where the client asks.
    pub fn way_in(&self, want: &Want) -> Result<Vec<Event>, StepFault>
        requires { Unit {0} }
        ensures inside { IfOk result (λ events. LeadsIn self.now want.now events.items) }
        ensures gentle { IfOk result (λ events. IsGentleWay self.now want.now events.items) }
        ensures refused { IfErr result (IsNoWay self.now want.now) }
    {
        let ballot = match self.may_want(want) {
            Ok(ballot) => ballot,
            Err(fault) => return Err(fault),
        };
        let chosen = self.nodes_to_win(want);
        let Ok(world) = self.copy() else {
            return Err(StepFault::Memory);
        };
        let events = Vec::new(self.alloc);
        let ahead = Ahead { world, events };
        if ballot.enough(want.mode, chosen) {
            ahead.lead(want, chosen)
        } else {
            ahead.lead_all(want)
        }
    }
}

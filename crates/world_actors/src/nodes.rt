// One node of the world.

ghost use Rattle.std.specs.Prelude.{◌≡◌, ℕ, Some, Err, length, true, IsOk, IfOk, IfErr, OnOk, OnErr, IsOkUnless};
ghost use Rattle.lock_messages.specs.Messages.{is_for_node};
ghost use Rattle.lock_model.specs.declared.problems.Problem.{Problem};
ghost use Rattle.lock_model.specs.ExactDecisions.{changes};
ghost use Rattle.lock_model.specs.ExactStations.{claim_of};
ghost use Rattle.stable_record.specs.Records.{IsNodeRecord};
ghost use Rattle.world_model.specs.Advice.{is_in_way, coming, blocks, finishing, is_up};
ghost use Rattle.world_model.specs.Forgetting.{station_of, node_of};
ghost use Rattle.world_model.specs.declared.events.Effect.TheVariants as effect;
ghost use Rattle.world_model.specs.declared.exact.ExactNodePhase.TheVariants as phase;
ghost use Rattle.world_model.specs.ExactNodes.{tries_station_in, keeps_station_in, says_in, takes_in, decided_on, switches_in, node_falls_in, node_rises_in, node_rises_with};
ghost use Rattle.world_model.specs.Openings.{down_node, empty_station};
ghost use Rattle.world_model.specs.Parts.{turn_says};
ghost use Rattle.world_model.specs.Turns.{acts, speaks};
ghost use Rattle.world_actors.specs.Acting.{IsRefusedTurn, MayTake, IsRefusedTake};
ghost use Rattle.world_actors.specs.Nodes.{station_in};

use admission_policy::Pair;
use lock_messages::{Actor, ClientId, Message, Mode, NodeId};
use lock_model::{Live, Problem, laws};
use stable_record::{Entries, IndexedRecord, NodeRecord};
use std::alloc::{AllocError, Global};
use std::marker::Model;
use voter_core::{NodeCore, Phase};
use world_model::{Age, Event, StepFault, Want};

/// One node of the world: what it has kept, what it tries to keep, and its core while it is up.
///
/// Contracts see its number and its part of the world. They do not see the policies, which stay for good.
#[derive(Drop)]
pub struct WorldNode {
    alloc: Global,
    core: NodeCore,
    kept: NodeRecord,
    tried: Option<NodeRecord>,
    up: bool,
}

impl Model for WorldNode {
    ghost use Rattle.world_actors.specs.Acting.{ActingNode};
    ghost use Rattle.world_actors.specs.Nodes.{acting_node, IsActing};

    ghost Value = { ActingNode };

    ghost view = { λ v. acting_node v.core v.kept v.tried v.up };

    ghost invariant = { λ v. IsActing v.core v.kept v.tried v.up };
}

/// The record without entries.
fn empty_record(alloc: Global, problem: Problem) -> NodeRecord
    ensures empty { station_in result ≡ empty_station problem }
    ensures good { IsNodeRecord result }
{
    NodeRecord {
        problem,
        entries: Entries::new(alloc),
    }
}

/// A copy of a record, if there is one. The only error is want of memory.
fn copy_if_any(station: &Option<NodeRecord>) -> Result<Option<NodeRecord>, AllocError>
    ensures { IfOk result (λ copy. copy ≡ station.now) }
{
    match station {
        Some(station) => Ok(Some(station.clone()?)),
        None => Ok(None),
    }
}

/// Whether a ticket of another client with this claim stands in the way.
fn is_in_way(want: &Want, live: &Live) -> bool
    ensures { result ≡ is_in_way want.now (claim_of (Some live.now)) }
{
    (want.mode == Mode::Write || live.mode == Mode::Write)
        && live.resource.bytes() == want.resource.bytes()
}

impl WorldNode {
    /// The node with this number, down, with this record kept and nothing tried. It takes no memory.
    ///
    /// The caller owes a record that can be kept and read again: one that `read_node` answered, or a
    /// copy of one. The node's problem is the record's.
    pub fn opened(alloc: Global, id: NodeId, station: NodeRecord, policies: Pair) -> WorldNode
        requires { IsNodeRecord station }
        ensures number { result.number ≡ id }
        ensures down { result.part ≡ down_node (station_in station) }
    {
        let empty = IndexedRecord::empty(alloc, station.problem);
        WorldNode {
            alloc,
            core: NodeCore::rise_with(alloc, id, empty, policies),
            kept: station,
            tried: None,
            up: false,
        }
    }

    /// The node with this number, down, with a record of this problem without entries kept and nothing
    /// tried. It takes no memory.
    pub fn empty(alloc: Global, id: NodeId, problem: Problem, policies: Pair) -> WorldNode
        requires { Unit {0} }
        ensures number { result.number ≡ id }
        ensures down { result.part ≡ down_node (empty_station problem) }
    {
        let station = empty_record(alloc, problem);
        WorldNode::opened(alloc, id, station, policies)
    }

    /// A copy of the node with policies of its own: the same number and part of the world. The only error is
    /// want of memory, and then the policies are dropped.
    pub fn copy(&self, policies: Pair) -> Result<WorldNode, AllocError>
        requires { Unit {0} }
        ensures { IfOk result (λ copy. copy ≡ self.now) }
    {
        let Ok(core) = self.core.copy(policies) else {
            return Err(AllocError);
        };
        Ok(WorldNode {
            alloc: self.alloc,
            core,
            kept: self.kept.clone()?,
            tried: copy_if_any(&self.tried)?,
            up: self.up,
        })
    }

    /// The node's number.
    pub fn number(&self) -> NodeId
        ensures { result ≡ self.now.number }
    {
        self.core.node()
    }

    /// The record that the node has kept. It can be kept and read again.
    pub fn kept(&self) -> &NodeRecord
        ensures kept { station_in result.now ≡ self.now.part.kept }
        ensures good { IsNodeRecord result.now }
    {
        &self.kept
    }

    /// Starts to keep what the node decided: the event `Try`. It copies the record once.
    ///
    /// Refused while the node is down (602), in another phase or with something tried already (604),
    /// and then for want of memory (613).
    pub fn start_keeping(&mut self) -> Result<(), StepFault>
        requires { Unit {0} }
        ensures done { OnOk result (tries_station_in self.old.part self.old.part.phase ≡ acts self.new.part effect.Tried) }
        ensures refused { IfErr result (λ f. IsRefusedTurn (tries_station_in self.old.part self.old.part.phase) f) }
        ensures unchanged { OnErr result (self.new ≡ self.old) }
        ensures number { self.new.number ≡ self.old.number }
    {
        if !self.up {
            return Err(StepFault::Down);
        }
        let Phase::Decided = self.core.phase() else {
            return Err(StepFault::WrongPhase);
        };
        if self.tried.is_some() {
            return Err(StepFault::WrongPhase);
        }
        let Ok(copy) = self.core.record().clone() else {
            return Err(StepFault::Memory);
        };
        self.tried = Some(copy);
        Ok(())
    }

    /// What is tried is kept, and the replies may be said: the event `Kept`. It takes no memory.
    ///
    /// Refused while the node is down (602), in another phase (604), and with nothing tried (611).
    pub fn keep(&mut self) -> Result<(), StepFault>
        requires { Unit {0} }
        ensures done { OnOk result (keeps_station_in self.old.part self.old.part.phase ≡ acts self.new.part effect.Kept) }
        ensures refused { IfErr result (λ f. keeps_station_in self.old.part self.old.part.phase ≡ Err f) }
        ensures unchanged { OnErr result (self.new ≡ self.old) }
        ensures number { self.new.number ≡ self.old.number }
    {
        if !self.up {
            return Err(StepFault::Down);
        }
        let Phase::Decided = self.core.phase() else {
            return Err(StepFault::WrongPhase);
        };
        let Some(tried) = self.tried.take() else {
            return Err(StepFault::NothingTried);
        };
        self.kept = tried;
        self.core.kept();
        Ok(())
    }

    /// How many replies the node has to say, or why it may say none: the own part of the event `Say`.
    ///
    /// Refused while the node is down (602), before what it decided is kept (605), and while it is idle
    /// (606).
    pub fn replies(&self) -> Result<usize, StepFault>
        ensures stored { OnOk result (IsOk (says_in self.now.part self.now.part.phase)) }
        ensures count { IfOk result (λ n. n ≡ length (turn_says (says_in self.now.part self.now.part.phase))) }
        ensures refused { IfErr result (λ f. says_in self.now.part self.now.part.phase ≡ Err f) }
    {
        if !self.up {
            return Err(StepFault::Down);
        }
        match self.core.phase() {
            Phase::Idle => Err(StepFault::NothingToSay),
            Phase::Decided => Err(StepFault::NotStored),
            Phase::Stored => Ok(self.core.replies()),
        }
    }

    /// The replies, in order, and the node is idle: the event `Say`. It takes no memory.
    ///
    /// Refused while the node is down (602), before what it decided is kept (605), and while it is idle
    /// (606).
    pub fn say(&mut self) -> Result<Vec<Message>, StepFault>
        requires { Unit {0} }
        ensures said { IfOk result (λ v. says_in self.old.part self.old.part.phase ≡ speaks self.new.part v.items (λ first. effect.Said first (length v.items))) }
        ensures refused { IfErr result (λ f. says_in self.old.part self.old.part.phase ≡ Err f) }
        ensures unchanged { OnErr result (self.new ≡ self.old) }
        ensures number { self.new.number ≡ self.old.number }
    {
        match self.replies() {
            Ok(_) => Ok(self.core.speak()),
            Err(fault) => Err(fault),
        }
    }

    /// Whether the node may take a message, or why not: the own part of the event `Take`. A switch is
    /// refused alike.
    ///
    /// Refused while the node is down (602) and while it is not idle (604).
    pub fn may_take(&self) -> Result<(), StepFault>
        ensures idle { OnOk result (self.now.part.phase ≡ phase.Idle) }
        ensures refused { IfErr result (λ f. (number : ℕ) → takes_in self.now.number number self.now.part self.now.part.phase ≡ Err f) }
        ensures no_switch { IfErr result (λ f. (problem : Problem) → switches_in self.now.number problem self.now.part self.now.part.phase ≡ Err f) }
    {
        if !self.up {
            return Err(StepFault::Down);
        }
        match self.core.phase() {
            Phase::Idle => Ok(()),
            Phase::Decided | Phase::Stored => Err(StepFault::WrongPhase),
        }
    }

    /// Decides on a message, and answers whether the record changes: the event `Take`.
    ///
    /// Refused while the node is down (602) and while it is not idle (604); then where the message is
    /// for another actor (608), and at last for want of memory (613).
    pub fn take(&mut self, message: &Message) -> Result<bool, StepFault>
        requires { Unit {0} }
        ensures taken { OnOk result (MayTake self.old message.now) }
        ensures exact { OnOk result (self.new.part ≡ decided_on self.old.part message.now) }
        ensures changes { IfOk result (λ b. b ≡ changes self.old.part.kept.problem self.old.part.kept.entries message.now) }
        ensures refused { IfErr result (λ f. IsRefusedTake self.old message.now f) }
        ensures unchanged { OnErr result (self.new ≡ self.old) }
        ensures number { self.new.number ≡ self.old.number }
    {
        laws::changes_are_seen();
        if let Err(fault) = self.may_take() {
            return Err(fault);
        }
        if !message.is_for_node(self.number()) {
            return Err(StepFault::NotAddressed);
        }
        match self.core.take(message) {
            Ok(changed) => Ok(changed),
            Err(_) => Err(StepFault::Memory),
        }
    }

    /// Takes this problem from now on, and answers whether it is another one than the kept record's: the
    /// event `Switch`. All tickets settle under it.
    ///
    /// Refused while the node is down (602) and while it is not idle (604), and then for want of memory
    /// (613).
    pub fn switch(&mut self, problem: Problem) -> Result<bool, StepFault>
        requires { Unit {0} }
        ensures done { IfOk result (λ b. switches_in self.old.number problem self.old.part self.old.part.phase ≡ acts self.new.part (effect.Switched b)) }
        ensures refused { IfErr result (λ f. IsRefusedTurn (switches_in self.old.number problem self.old.part self.old.part.phase) f) }
        ensures unchanged { OnErr result (self.new ≡ self.old) }
        ensures number { self.new.number ≡ self.old.number }
    {
        laws::switch_is_allowed();
        if let Err(fault) = self.may_take() {
            return Err(fault);
        }
        match self.core.switch(problem) {
            Ok(changed) => Ok(changed),
            Err(_) => Err(StepFault::Memory),
        }
    }

    /// The node falls: what it has kept and what it tries to keep remain. It takes no memory.
    ///
    /// Refused while it is down (602).
    pub fn fall(&mut self) -> Result<(), StepFault>
        requires { Unit {0} }
        ensures done { OnOk result (node_falls_in self.old.part self.old.part.phase ≡ acts self.new.part effect.Down) }
        ensures refused { IfErr result (λ f. node_falls_in self.old.part self.old.part.phase ≡ Err f) }
        ensures unchanged { OnErr result (self.new ≡ self.old) }
        ensures number { self.new.number ≡ self.old.number }
    {
        if !self.up {
            return Err(StepFault::Down);
        }
        self.up = false;
        Ok(())
    }

    /// With the kept record the node is up again, idle.
    fn rise_old(&mut self) -> Result<(), StepFault>
        requires { Unit {0} }
        ensures done { OnOk result (node_rises_with Age.Old self.old.part.kept self.old.part.tried ≡ acts self.new.part effect.Up) }
        ensures memory { IsOkUnless result StepFault.Memory }
        ensures unchanged { OnErr result (self.new ≡ self.old) }
        ensures number { self.new.number ≡ self.old.number }
    {
        let Ok(copy) = IndexedRecord::copy_of(self.alloc, &self.kept) else {
            return Err(StepFault::Memory);
        };
        self.core.restart_with(copy);
        self.tried = None;
        self.up = true;
        Ok(())
    }

    /// With the tried record, which is then the kept one, the node is up again, idle.
    fn rise_new(&mut self) -> Result<(), StepFault>
        requires { Unit {0} }
        ensures done { OnOk result (node_rises_with Age.New self.old.part.kept self.old.part.tried ≡ acts self.new.part effect.Up) }
        ensures refused { IfErr result (λ f. IsRefusedTurn (node_rises_with Age.New self.old.part.kept self.old.part.tried) f) }
        ensures unchanged { OnErr result (self.new ≡ self.old) }
        ensures number { self.new.number ≡ self.old.number }
    {
        let Some(found) = &self.tried else {
            return Err(StepFault::NothingTried);
        };
        let Ok(copy) = IndexedRecord::copy_of(self.alloc, found) else {
            return Err(StepFault::Memory);
        };
        if let Some(next) = self.tried.take() {
            self.kept = next;
        }
        self.core.restart_with(copy);
        self.up = true;
        Ok(())
    }

    /// The node rises with the record that it finds: the kept one or, of the age `New`, the one that
    /// it was trying to keep. It copies that record once, and indexes the copy.
    ///
    /// Refused while it is up (603), for `New` with nothing tried (611), and then for want of memory
    /// (613).
    pub fn rise(&mut self, age: Age) -> Result<(), StepFault>
        requires { Unit {0} }
        ensures done { OnOk result (node_rises_in age self.old.part self.old.part.phase ≡ acts self.new.part effect.Up) }
        ensures refused { IfErr result (λ f. IsRefusedTurn (node_rises_in age self.old.part self.old.part.phase) f) }
        ensures unchanged { OnErr result (self.new ≡ self.old) }
        ensures number { self.new.number ≡ self.old.number }
    {
        if self.up {
            return Err(StepFault::Up);
        }
        match age {
            Age::Old => self.rise_old(),
            Age::New => self.rise_new(),
        }
    }

    /// Whether the node is up.
    pub fn is_up(&self) -> bool
        ensures { result ≡ is_up (node_of self.now.part).phase }
    {
        let WorldNode { up, .. } = self;
        *up
    }

    /// The event by which the node goes on with what it is about: it keeps what it decided, or says its
    /// replies. `None` where it is idle or down. It takes no memory.
    pub fn finishing(&self) -> Option<Event>
        ensures { result ≡ finishing self.now.number (node_of self.now.part) }
    {
        if !self.up {
            return None;
        }
        let id = self.number();
        match self.core.phase() {
            Phase::Idle => None,
            Phase::Decided if self.tried.is_some() => Some(Event::Kept(Actor::Node(id))),
            Phase::Decided => Some(Event::Try(Actor::Node(id))),
            Phase::Stored => Some(Event::Say(id)),
        }
    }

    /// The record that the node will have kept once it has finished.
    fn coming(&self) -> &NodeRecord
        ensures { station_of (station_in result.now) ≡ coming (node_of self.now.part) }
    {
        if !self.up {
            return &self.kept;
        }
        match self.core.phase() {
            Phase::Decided => self.core.record(),
            Phase::Idle | Phase::Stored => &self.kept,
        }
    }

    /// Whether a ticket of this client stands in the way of what another wants, in the record that the
    /// node will have kept once it has finished: it is for the same resource, and one of the two is a
    /// writer's. It takes one look-up.
    pub fn blocks(&self, want: &Want, client: ClientId) -> bool
        ensures { result ≡ blocks want.now (coming (node_of self.now.part)) client }
    {
        if client == want.client {
            return false;
        }
        let Some(entry) = self.coming().entries.entry_of(client) else {
            return false;
        };
        match entry.live {
            Some(live) => is_in_way(want, &live),
            None => false,
        }
    }
}

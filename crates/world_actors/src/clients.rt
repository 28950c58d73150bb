// One client of the world.

ghost use Rattle.std.specs.Prelude.{◌≡◌, ◌≤◌, ℕ, Err, false, is_some, IfOk, IfErr, OnOk, OnErr};
ghost use Rattle.lock_model.specs.Ballots.{node_count};
ghost use Rattle.lock_model.specs.ExactHearing.{is_node_of};
ghost use Rattle.client_core.specs.Clients.{ticket_of, place_of};
ghost use Rattle.world_model.specs.Advice.{resting, beginning, is_client_up};
ghost use Rattle.world_model.specs.Forgetting.{client_of};
ghost use Rattle.world_model.specs.declared.events.Effect.TheVariants as effect;
ghost use Rattle.world_model.specs.ExactClients.{begins_in, tries_attempt_in, keeps_attempt_in, tells, says_one, hears, heard_in, after_hearing, is_down, enters_in, leaves_in, softens_in, client_falls_in, client_rises_in};
ghost use Rattle.world_model.specs.Openings.{down_client};
ghost use Rattle.world_model.specs.Turns.{acts};
ghost use Rattle.world_model.specs.Views.{ticket_in};
ghost use Rattle.world_actors.specs.Asking.{asked_in, is_for, must_fall};

use client_core::{ClientCore, ClientFault, Phase};
use lock_messages::{
    Actor, Attempt, ClientId, MAX_ATTEMPT, Message, Mode, NodeId, ResourceName, Ticket,
};
use lock_model::Heard;
use std::marker::Model;
use vote_weights::{BallotList, NodeSet};
use world_model::{Age, Event, StepFault, Want};

/// One client of the world: the attempt that it has kept (0 for none), the one that it tries to keep,
/// and its core while it is up.
///
/// Contracts see its number, its ballots and its part of the world. No call takes memory.
#[derive(Debug, Drop)]
pub struct WorldClient {
    core: ClientCore,
    kept: u64,
    tried: Option<u64>,
    up: bool,
}

impl Model for WorldClient {
    ghost use Rattle.world_actors.specs.Acting.{ActingClient};
    ghost use Rattle.world_actors.specs.Clients.{acting_client, IsActing};

    ghost Value = { ActingClient };

    ghost view = { λ k. acting_client k.core k.kept k.tried k.up };

    ghost invariant = { λ k. IsActing k.core k.kept k.tried k.up };
}

/// Whether the node is one of so many.
fn is_node_of(nodes: u8, node: NodeId) -> bool
    ensures { result ≡ is_node_of nodes node }
{
    let number = node.get();
    1 <= number && number <= nodes
}

/// Whether the core's attempt is for what is wanted.
fn is_for(core: &ClientCore, want: &Want) -> bool
    ensures { result ≡ is_for want.now (ticket_of core.now) (place_of core.now) }
{
    match (core.ticket(), core.place()) {
        (Some(ticket), Some(place)) => {
            ticket.mode == want.mode
                && ticket.resource.bytes() == want.resource.bytes()
                && place == want.place
        }
        (Some(_) | None, _) => false,
    }
}

impl WorldClient {
    /// The client with this number, down, with this attempt kept (0 for none) and nothing tried.
    ///
    /// The caller owes an attempt of at most `MAX_ATTEMPT`.
    pub fn opened(client: ClientId, attempt: u64, ballots: BallotList) -> WorldClient
        requires { attempt ≤ MAX_ATTEMPT }
        ensures number { result.number ≡ client }
        ensures ballots { result.ballots ≡ ballots }
        ensures down { result.part ≡ down_client attempt }
    {
        WorldClient {
            core: ClientCore::rise(client, attempt, ballots),
            kept: attempt,
            tried: None,
            up: false,
        }
    }

    /// A copy of the client: the same number, ballots and part of the world.
    pub fn copy(&self) -> WorldClient
        ensures { result ≡ self.now }
    {
        WorldClient {
            core: self.core.copy(),
            kept: self.kept,
            tried: self.tried,
            up: self.up,
        }
    }

    /// The client's number.
    pub fn number(&self) -> ClientId
        ensures { result ≡ self.now.number }
    {
        self.core.client()
    }

    /// The attempt that the client has kept, 0 for none.
    pub fn kept(&self) -> u64
        ensures kept { result ≡ self.now.part.kept }
        ensures in_range { result ≤ MAX_ATTEMPT }
    {
        self.kept
    }

    /// Whether the client is inside a resource.
    pub fn is_inside(&self) -> bool
        ensures { result ≡ is_some (ticket_in self.now.part.phase) }
    {
        self.up && matches!(self.core.phase(), Phase::Inside)
    }

    /// The ticket with which the client is inside, if it is.
    pub fn inside(&self) -> Option<Ticket>
        ensures { result ≡ ticket_in self.now.part.phase }
    {
        if self.is_inside() {
            self.core.ticket()
        } else {
            None
        }
    }

    /// Begins the next attempt, by the ballot at this place, and answers its number: the event `Begin`.
    ///
    /// Refused while the client is down (602), in another phase than at rest (604), after the greatest
    /// attempt (610), and where the list doesn't have the place (614).
    pub fn begin(
        &mut self,
        mode: Mode,
        resource: ResourceName,
        place: u8,
    ) -> Result<Attempt, StepFault>
        ensures done { IfOk result (λ a. begins_in self.old.ballots self.old.number mode resource place self.old.part self.old.part.phase ≡ acts self.new.part (effect.Chose a)) }
        ensures refused { IfErr result (λ f. begins_in self.old.ballots self.old.number mode resource place self.old.part self.old.part.phase ≡ Err f) }
        ensures unchanged { OnErr result (self.new ≡ self.old) }
        ensures number { self.new.number ≡ self.old.number }
        ensures ballots { self.new.ballots ≡ self.old.ballots }
    {
        if !self.up {
            return Err(StepFault::Down);
        }
        match self.core.begin(resource, mode, place) {
            Ok(attempt) => Ok(attempt),
            Err(ClientFault::NotIdle) => Err(StepFault::WrongPhase),
            Err(ClientFault::AttemptsSpent) => Err(StepFault::AttemptsSpent),
            Err(ClientFault::NoSuchPlace) => Err(StepFault::NoSuchPlace),
        }
    }

    /// Starts to keep the number of the attempt that was chosen: the event `Try`.
    ///
    /// Refused while the client is down (602), and in another phase or with something tried already
    /// (604).
    pub fn start_keeping(&mut self) -> Result<(), StepFault>
        ensures done { OnOk result (tries_attempt_in self.old.part self.old.part.phase ≡ acts self.new.part effect.Tried) }
        ensures refused { IfErr result (λ f. tries_attempt_in self.old.part self.old.part.phase ≡ Err f) }
        ensures unchanged { OnErr result (self.new ≡ self.old) }
        ensures number { self.new.number ≡ self.old.number }
        ensures ballots { self.new.ballots ≡ self.old.ballots }
    {
        if !self.up {
            return Err(StepFault::Down);
        }
        let Phase::Chosen = self.core.phase() else {
            return Err(StepFault::WrongPhase);
        };
        if self.tried.is_some() {
            return Err(StepFault::WrongPhase);
        }
        self.tried = Some(self.core.attempt());
        Ok(())
    }

    /// What is tried is kept, and the client asks with its ticket: the event `Kept`.
    ///
    /// Refused while the client is down (602), in another phase (604), and with nothing tried (611).
    pub fn keep(&mut self) -> Result<(), StepFault>
        ensures done { OnOk result (keeps_attempt_in self.old.part self.old.part.phase ≡ acts self.new.part effect.Kept) }
        ensures refused { IfErr result (λ f. keeps_attempt_in self.old.part self.old.part.phase ≡ Err f) }
        ensures unchanged { OnErr result (self.new ≡ self.old) }
        ensures number { self.new.number ≡ self.old.number }
        ensures ballots { self.new.ballots ≡ self.old.ballots }
    {
        if !self.up {
            return Err(StepFault::Down);
        }
        let Phase::Chosen = self.core.phase() else {
            return Err(StepFault::WrongPhase);
        };
        let Some(tried) = self.tried else {
            return Err(StepFault::NothingTried);
        };
        self.kept = tried;
        self.tried = None;
        self.core.kept();
        Ok(())
    }

    /// What the client has to say to a node, or why nothing: the own part of the event `SayTo`. It is
    /// the request of its ticket while it asks or is inside, that it has softened once it has, the
    /// release of its attempt while it rests.
    ///
    /// Refused for a node that no ballot has (601), while the client is down (602), before the number
    /// that it chose is kept (605), and at rest before the first attempt (606).
    pub fn message_for(&self, node: NodeId) -> Result<Message, StepFault>
        ensures said { IfOk result (λ m. tells self.now.ballots self.now.number node self.now.part ≡ says_one self.now.part m) }
        ensures refused { IfErr result (λ f. tells self.now.ballots self.now.number node self.now.part ≡ Err f) }
    {
        if !is_node_of(self.core.ballots().nodes(), node) {
            return Err(StepFault::UnknownActor);
        }
        if !self.up {
            return Err(StepFault::Down);
        }
        match (self.core.message_for(node), self.core.phase()) {
            (Some(message), _) => Ok(message),
            (None, Phase::Chosen) => Err(StepFault::NotStored),
            (None, _) => Err(StepFault::NothingToSay),
        }
    }

    /// Whether the client may hear a message, or why not: the own part of the event `Hear`.
    ///
    /// Refused while it is down (602).
    pub fn may_hear(&self) -> Result<(), StepFault>
        ensures up { OnOk result (is_down self.now.part.phase ≡ false) }
        ensures refused { IfErr result (λ f. (nodes c number : ℕ) → hears nodes c number self.now.part ≡ Err f) }
    {
        if self.up {
            Ok(())
        } else {
            Err(StepFault::Down)
        }
    }

    /// Hears a message, and answers what the client makes of it: the event `Hear`. A client that is
    /// down makes nothing of it; `may_hear` tells.
    pub fn hear(&mut self, message: &Message) -> Heard
        ensures heard { result ≡ heard_in (node_count self.old.ballots) self.old.number self.old.part.kept self.old.part.phase message.now }
        ensures exact { self.new.part ≡ after_hearing (node_count self.old.ballots) self.old.number self.old.part message.now }
        ensures number { self.new.number ≡ self.old.number }
        ensures ballots { self.new.ballots ≡ self.old.ballots }
    {
        if !self.up {
            return Heard::NotMine;
        }
        self.core.hear(message)
    }

    /// The client that asks is inside: the event `Enter`.
    ///
    /// Refused while it is down (602), in another phase (604), and while its votes are too few (609).
    pub fn enter(&mut self) -> Result<(), StepFault>
        ensures done { OnOk result (enters_in self.old.ballots self.old.part self.old.part.phase ≡ acts self.new.part effect.Inside) }
        ensures refused { IfErr result (λ f. enters_in self.old.ballots self.old.part self.old.part.phase ≡ Err f) }
        ensures unchanged { OnErr result (self.new ≡ self.old) }
        ensures number { self.new.number ≡ self.old.number }
        ensures ballots { self.new.ballots ≡ self.old.ballots }
    {
        if !self.up {
            return Err(StepFault::Down);
        }
        let Phase::Asking = self.core.phase() else {
            return Err(StepFault::WrongPhase);
        };
        if !self.core.may_enter() {
            return Err(StepFault::NoQuorum);
        }
        self.core.enter();
        Ok(())
    }

    /// The client leaves, or gives up asking, and rests: the event `Leave`.
    ///
    /// Refused while it is down (602), and while it neither asks nor is inside (604).
    pub fn leave(&mut self) -> Result<(), StepFault>
        ensures done { OnOk result (leaves_in self.old.part self.old.part.phase ≡ acts self.new.part effect.Outside) }
        ensures refused { IfErr result (λ f. leaves_in self.old.part self.old.part.phase ≡ Err f) }
        ensures unchanged { OnErr result (self.new ≡ self.old) }
        ensures number { self.new.number ≡ self.old.number }
        ensures ballots { self.new.ballots ≡ self.old.ballots }
    {
        if !self.up {
            return Err(StepFault::Down);
        }
        match self.core.phase() {
            Phase::Idle | Phase::Chosen => Err(StepFault::WrongPhase),
            Phase::Asking | Phase::Inside => {
                self.core.leave();
                Ok(())
            }
        }
    }

    /// The client, inside as a writer, is a reader from now on: the event `Soften`.
    ///
    /// Refused while it is down (602), and unless it is inside as a writer (604).
    pub fn soften(&mut self) -> Result<(), StepFault>
        ensures done { OnOk result (softens_in self.old.part self.old.part.phase ≡ acts self.new.part effect.Softened) }
        ensures refused { IfErr result (λ f. softens_in self.old.part self.old.part.phase ≡ Err f) }
        ensures unchanged { OnErr result (self.new ≡ self.old) }
        ensures number { self.new.number ≡ self.old.number }
        ensures ballots { self.new.ballots ≡ self.old.ballots }
    {
        if !self.up {
            return Err(StepFault::Down);
        }
        if !self.core.may_soften() {
            return Err(StepFault::WrongPhase);
        }
        self.core.soften();
        Ok(())
    }

    /// The client falls: what it has kept and what it tries to keep remain.
    ///
    /// Refused while it is down (602).
    pub fn fall(&mut self) -> Result<(), StepFault>
        ensures done { OnOk result (client_falls_in self.old.part self.old.part.phase ≡ acts self.new.part effect.Down) }
        ensures refused { IfErr result (λ f. client_falls_in self.old.part self.old.part.phase ≡ Err f) }
        ensures unchanged { OnErr result (self.new ≡ self.old) }
        ensures number { self.new.number ≡ self.old.number }
        ensures ballots { self.new.ballots ≡ self.old.ballots }
    {
        if !self.up {
            return Err(StepFault::Down);
        }
        self.up = false;
        Ok(())
    }

    /// The client rises with the attempt that it finds: the kept one or, of the age `New`, the one that
    /// it was trying to keep.
    ///
    /// Refused while it is up (603), and for `New` with nothing tried (611).
    pub fn rise(&mut self, age: Age) -> Result<(), StepFault>
        ensures done { OnOk result (client_rises_in age self.old.part self.old.part.phase ≡ acts self.new.part effect.Up) }
        ensures refused { IfErr result (λ f. client_rises_in age self.old.part self.old.part.phase ≡ Err f) }
        ensures unchanged { OnErr result (self.new ≡ self.old) }
        ensures number { self.new.number ≡ self.old.number }
        ensures ballots { self.new.ballots ≡ self.old.ballots }
    {
        if self.up {
            return Err(StepFault::Up);
        }
        let attempt = match (age, self.tried) {
            (Age::Old, _) => self.kept,
            (Age::New, Some(tried)) => tried,
            (Age::New, None) => return Err(StepFault::NothingTried),
        };
        self.kept = attempt;
        self.tried = None;
        self.core.restart(attempt);
        self.up = true;
        Ok(())
    }

    /// Whether the client is up.
    pub fn is_up(&self) -> bool
        ensures { result ≡ is_client_up (client_of self.now.part).phase }
    {
        let WorldClient { up, .. } = self;
        *up
    }

    /// The event by which the client goes on to be at rest: it keeps the attempt that it has chosen, or
    /// leaves. `None` where it is at rest or down.
    pub fn resting(&self) -> Option<Event>
        ensures { result ≡ resting self.now.number (client_of self.now.part) }
    {
        if !self.up {
            return None;
        }
        let id = self.number();
        match self.core.phase() {
            Phase::Idle => None,
            Phase::Chosen if self.tried.is_some() => Some(Event::Kept(Actor::Client(id))),
            Phase::Chosen => Some(Event::Try(Actor::Client(id))),
            Phase::Asking | Phase::Inside => Some(Event::Leave(id)),
        }
    }

    /// The event by which the client that wants in, which is this one, goes on to ask for it: it begins,
    /// keeps the attempt that it has chosen, or leaves what it asks for or is inside of. `None` where it
    /// asks for what is wanted or is inside as is wanted, and where it is down.
    pub fn beginning(&self, want: &Want) -> Option<Event>
        ensures { result ≡ beginning want.now (client_of self.now.part) }
    {
        if !self.up {
            return None;
        }
        match self.core.phase() {
            Phase::Idle => Some(Event::Begin(want.client, want.mode, want.resource, want.place)),
            Phase::Chosen if self.tried.is_some() => Some(Event::Kept(Actor::Client(want.client))),
            Phase::Chosen => Some(Event::Try(Actor::Client(want.client))),
            Phase::Asking | Phase::Inside if is_for(&self.core, want) => None,
            Phase::Asking | Phase::Inside => Some(Event::Leave(want.client)),
        }
    }

    /// The ticket with which the client asks, if it does, and the nodes that granted it.
    pub fn asked(&self) -> Option<(Ticket, NodeSet)>
        ensures { result ≡ asked_in self.now.part.phase }
    {
        if !self.up {
            return None;
        }
        match (self.core.phase(), self.core.ticket()) {
            (Phase::Asking, Some(ticket)) => Some((ticket, self.core.granted())),
            (Phase::Idle | Phase::Chosen | Phase::Asking | Phase::Inside, _) => None,
        }
    }

    /// Whether the attempt that the client has chosen is the greatest, and not for what is wanted: only by a
    /// fall, which loses it, an attempt is left.
    pub fn must_fall(&self, want: &Want) -> bool
        ensures { result ≡ must_fall want.now (client_of self.now.part).phase }
    {
        if !self.up {
            return false;
        }
        match self.core.phase() {
            Phase::Chosen => !(is_for(&self.core, want) || self.core.attempt() < MAX_ATTEMPT),
            Phase::Idle | Phase::Asking | Phase::Inside => false,
        }
    }
}

// A client that is stepped by its own events.

ghost use Rattle.std.specs.Prelude.{◌≡◌, ◌≤◌};
ghost use Rattle.lock_messages.specs.declared.ids.Actor.TheVariants as who;
ghost use Rattle.world_model.specs.Openings.{down_client};
ghost use Rattle.world_model.specs.Parts.{ClientPart};

use crate::OwnActor;
use lock_messages::{Actor, ClientId, MAX_ATTEMPT, Message};
use stable_record::client_bytes;
use std::alloc::{AllocError, Global};
use std::marker::Model;
use vote_weights::BallotList;
use world_actors::WorldClient;
use world_model::{Effect, Event, StepFault};

/// A client of the world in a process of its own.
///
/// Contracts see its number, its ballots and its part of the world.
#[derive(Debug, Drop)]
pub struct OwnClient {
    client: WorldClient,
    list: BallotList,
}

impl Model for OwnClient {
    ghost use Rattle.std.specs.Prelude.{◌≡◌};
    ghost use Rattle.world_actors.specs.Acting.{ActingClient};

    ghost Value = { ActingClient };

    ghost view = { λ k. k.client };

    ghost invariant = { λ k. k.list ≡ k.client.ballots };
}

impl OwnClient {
    /// The client with this number, down, with this attempt kept (0 for none) and nothing tried.
    ///
    /// The caller owes an attempt of at most `MAX_ATTEMPT`.
    pub fn opened(client: ClientId, attempt: u64, list: BallotList) -> OwnClient
        requires { attempt ≤ MAX_ATTEMPT }
        ensures number { result.number ≡ client }
        ensures ballots { result.ballots ≡ list }
        ensures down { result.part ≡ down_client attempt }
    {
        OwnClient {
            client: WorldClient::opened(client, attempt, list),
            list,
        }
    }
}

impl OwnActor for OwnClient {
    ghost actor = { λ k. who.Client k.number };

    ghost ballots = { λ k. k.ballots };

    ghost part = { λ k. ClientPart k.part };

    fn who(&self) -> Actor {
        Actor::Client(self.client.number())
    }

    fn list(&self) -> BallotList {
        self.list
    }

    fn record(&self, alloc: Global) -> Result<Vec<u8>, AllocError> {
        Vec::from_slice(alloc, &client_bytes(self.client.kept()))
    }

    fn act(&mut self, event: Event) -> Result<Effect, StepFault> {
        match event {
            Event::Begin(_, mode, resource, place) => {
                let attempt = self.client.begin(mode, resource, place)?;
                Ok(Effect::Chose(attempt))
            }
            Event::Try(_) => {
                self.client.start_keeping()?;
                Ok(Effect::Tried)
            }
            Event::Kept(_) => {
                self.client.keep()?;
                Ok(Effect::Kept)
            }
            Event::SayTo(_, node) => {
                let message = self.client.message_for(node)?;
                Ok(Effect::Sent(1, message))
            }
            Event::Enter(_) => {
                self.client.enter()?;
                Ok(Effect::Inside)
            }
            Event::Leave(_) => {
                self.client.leave()?;
                Ok(Effect::Outside)
            }
            Event::Soften(_) => {
                self.client.soften()?;
                Ok(Effect::Softened)
            }
            Event::Fall(_) => {
                self.client.fall()?;
                Ok(Effect::Down)
            }
            Event::Rise(_, age) => {
                self.client.rise(age)?;
                Ok(Effect::Up)
            }
            Event::Say(_) | Event::Take(..) | Event::Hear(..) | Event::Switch(..) => unreachable!(),
        }
    }

    #[tactic(auto, using(crate::proofs::TurnFacts::heard_turn))]
    fn read(&mut self, event: Event, message: &Message) -> Result<Effect, StepFault> {
        let _ = event;
        let heard = self.client.hear(message);
        Ok(Effect::Heard(*message, heard))
    }
}

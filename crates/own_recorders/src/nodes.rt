// A node that is stepped by its own events.

ghost use Rattle.std.specs.Prelude.{◌≡◌, ℕ, List, None, IfOk, OnErr, IsOk, IsOkUnless};
ghost use Rattle.world_model.specs.ExactNodes.{says_in};
ghost use Rattle.lock_messages.specs.declared.ids.Actor.TheVariants as who;
ghost use Rattle.lock_model.specs.Ballots.{Ballot};
ghost use Rattle.world_model.specs.declared.events.Event.{Event as EventValue};
ghost use Rattle.world_model.specs.Parts.{NodePart};
ghost use Rattle.own_recorders.specs.OwnTurns.{HasTurned};

use crate::OwnActor;
use lock_messages::{Actor, Message};
use stable_record::node_bytes;
use std::alloc::{AllocError, Global};
use vote_weights::BallotList;
use world_actors::WorldNode;
use world_model::{Effect, Event, StepFault};

/// A node of the world in a process of its own.
///
/// It has the ballots of the service only because an own log names them. A node counts no votes.
#[derive(Drop)]
pub struct OwnNode {
    pub node: WorldNode,
    pub list: BallotList,
}

/// The node says its replies. The only error is running out of memory (613). It changes nothing.
#[tactic(auto, using(crate::proofs::TurnFacts::said_turn))]
fn say(node: &mut WorldNode) -> Result<Effect, StepFault>
    ensures number { node.new.number ≡ node.old.number }
    ensures turned { IfOk result (λ done. (b : List Ballot) (n : ℕ) → HasTurned b (NodePart node.old.part) (EventValue.Say n) None done (NodePart node.new.part)) }
    ensures refused { OnErr result (node.new ≡ node.old) }
    ensures memory { IsOk (says_in node.old.part node.old.part.phase) → IsOkUnless result StepFault.Memory }
{
    let Ok(count) = u32::try_from(node.replies()?) else {
        return Err(StepFault::Memory);
    };
    node.say()?;
    Ok(Effect::Said { first: 1, count })
}

impl OwnActor for OwnNode {
    ghost actor = { λ k. who.Node k.node.number };

    ghost ballots = { λ k. k.list };

    ghost part = { λ k. NodePart k.node.part };

    fn who(&self) -> Actor {
        Actor::Node(self.node.number())
    }

    fn list(&self) -> BallotList {
        self.list
    }

    fn record(&self, alloc: Global) -> Result<Vec<u8>, AllocError> {
        match node_bytes(alloc, self.node.kept()) {
            Ok(bytes) => Ok(bytes),
            Err(_) => Err(AllocError),
        }
    }

    fn act(&mut self, event: Event) -> Result<Effect, StepFault> {
        match event {
            Event::Try(_) => {
                self.node.start_keeping()?;
                Ok(Effect::Tried)
            }
            Event::Kept(_) => {
                self.node.keep()?;
                Ok(Effect::Kept)
            }
            Event::Say(_) => say(&mut self.node),
            Event::Fall(_) => {
                self.node.fall()?;
                Ok(Effect::Down)
            }
            Event::Rise(_, age) => {
                self.node.rise(age)?;
                Ok(Effect::Up)
            }
            Event::Switch(_, problem) => {
                let changed = self.node.switch(problem)?;
                Ok(Effect::Switched(changed))
            }
            Event::Begin(..)
            | Event::SayTo(..)
            | Event::Take(..)
            | Event::Hear(..)
            | Event::Enter(_)
            | Event::Leave(_)
            | Event::Soften(_) => unreachable!(),
        }
    }

    fn read(&mut self, event: Event, message: &Message) -> Result<Effect, StepFault> {
        let _ = event;
        let changed = self.node.take(message)?;
        Ok(Effect::Took(*message, changed))
    }
}

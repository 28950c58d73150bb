// The trait of an actor that is stepped by its own events.

ghost use Rattle.std.specs.Prelude.{◌≡◌, true, false, None, Some, List, IfOk, OnErr, IsOkUnless};
ghost use Rattle.lock_messages.specs.declared.ids.Actor.{Actor as ActorValue};
ghost use Rattle.lock_messages.specs.Messages.{is_for};
ghost use Rattle.lock_model.specs.Ballots.{Ballot};
ghost use Rattle.world_model.specs.Parts.{Part, is_own, own_refusal};
ghost use Rattle.event_recorders.specs.OwnLogs.{kept_in, reads};
ghost use Rattle.own_recorders.specs.OwnTurns.{HasTurned};

use lock_messages::{Actor, Message};
use std::alloc::{AllocError, Global};
use vote_weights::BallotList;
use world_model::{Effect, Event, StepFault};

/// A node or a client of the world that is stepped by its own events alone.
///
/// Three ghost members, which no code computes, say what it means: `actor` is which actor it is, `ballots` are those of
/// the service, and `part` is its part of the world.
pub trait OwnActor: Drop {
    ghost actor: { Self → ActorValue };

    ghost ballots: { Self → List Ballot };

    ghost part: { Self → Part };

    /// Which actor it is.
    fn who(&self) -> Actor
        ensures { result ≡ actor self.now };

    /// The ballots of the service.
    fn list(&self) -> BallotList
        ensures { result ≡ ballots self.now };

    /// The record of what it has kept. The only error is running out of memory.
    fn record(&self, alloc: Global) -> Result<Vec<u8>, AllocError>
        ensures { IfOk result (λ bytes. bytes.items ≡ kept_in (part self.now)) };

    /// Takes the turn of an event that reads no message, and returns its effect. A message that it says gets the number
    /// 1, since there is no list of messages here.
    ///
    /// The caller owes that the event is the actor's and that its own part allows it. The only error is running out of
    /// memory (613). It changes nothing.
    fn act(&mut self, event: Event) -> Result<Effect, StepFault>
        requires own { is_own (actor self.old) event ≡ true }
        requires plain { reads event ≡ false }
        requires allowed { own_refusal (ballots self.old) event (part self.old) ≡ None }
        ensures actor { actor self.new ≡ actor self.old }
        ensures ballots { ballots self.new ≡ ballots self.old }
        ensures turned { IfOk result (λ done. HasTurned (ballots self.old) (part self.old) event None done (part self.new)) }
        ensures refused { OnErr result (part self.new ≡ part self.old) }
        ensures memory { IsOkUnless result StepFault.Memory };

    /// Takes or hears this message, and returns the effect.
    ///
    /// The caller owes what `act` asks for, and that the message is for the actor. The errors are those of `act`.
    fn read(&mut self, event: Event, message: &Message) -> Result<Effect, StepFault>
        requires own { is_own (actor self.old) event ≡ true }
        requires reading { reads event ≡ true }
        requires allowed { own_refusal (ballots self.old) event (part self.old) ≡ None }
        requires addressed { is_for (actor self.old) message.now ≡ true }
        ensures actor { actor self.new ≡ actor self.old }
        ensures ballots { ballots self.new ≡ ballots self.old }
        ensures turned { IfOk result (λ done. HasTurned (ballots self.old) (part self.old) event (Some message.now) done (part self.new)) }
        ensures refused { OnErr result (part self.new ≡ part self.old) }
        ensures memory { IsOkUnless result StepFault.Memory };
}

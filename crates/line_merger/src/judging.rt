// Lines that are judged: no list of messages is kept.

ghost use Rattle.std.specs.Prelude.{◌≡◌, ℕ, IfOk, List};
ghost use Rattle.own_journals.specs.declared.lines.OwnLine.TheVariants as own;
ghost use Rattle.world_model.specs.declared.exact.ExactWorld.{ExactWorld};
ghost use Rattle.line_merger.specs.Offers.{GoesOn};
ghost use Rattle.line_merger.specs.Judging.{Judged, IsOf, JudgesLine, TakesRecalled};

use crate::events::take_event;
use crate::lines::take_life_of;
use crate::readings::take_numbered;
use crate::{MergeFault, Offer};
use bytes::Bytes;
use frame_numbers::SaidFrames;
use journal_merge::laws::judging_is_exact;
use lock_messages::laws::one_spelling;
use lock_messages::{Actor, decode};
use own_journals::OwnLine;
use std::alloc::{AllocError, Global};
use std::marker::Model;
use world_machine::{Actors, World};
use world_model::laws::steps_change_one_part;

/// Takes lines of journals in a world of which it keeps the actors, and the frames of the messages that were said.
///
/// So it takes as many lines as there are, and its memory is bounded by the different messages.
#[derive(Drop)]
pub struct Judge {
    actors: Actors,
    said: SaidFrames,
}

impl Model for Judge {
    ghost use Rattle.line_merger.specs.Judging.{Judged};

    ghost Value = { Judged };

    ghost view = { λ s. record { actors = s.actors; frames = s.said } };
}

/// Takes a line that reads the message of this frame, if it was said. The actors have no other messages then.
fn take_said(
    actors: &mut Actors,
    said: &SaidFrames,
    who: &Actor,
    frame: &Bytes,
) -> Result<Offer, MergeFault>
    ensures { (w : ExactWorld) → IsOf (record { actors = actors.old; frames = said.now }) w → TakesRecalled w who.now (own.Reads who.now frame.now) result actors.new }
{
    one_spelling();
    if !said.has(frame) {
        return Ok(Offer::Waits);
    }
    let Ok(message) = decode(frame) else {
        return Ok(Offer::Waits);
    };
    let Ok(()) = actors.bring(message) else {
        return Err(MergeFault::Memory);
    };
    take_numbered(actors, who, 1)
}

/// Takes a line of the actor's journal. What is said then is in the actors' list.
fn take_any(
    actors: &mut Actors,
    said: &SaidFrames,
    who: &Actor,
    line: &OwnLine,
) -> Result<Offer, MergeFault>
    ensures { (w : ExactWorld) → IsOf (record { actors = actors.old; frames = said.now }) w → TakesRecalled w who.now line.now result actors.new }
{
    match line {
        OwnLine::Life(whose, found) => take_life_of(actors, who, whose, found),
        OwnLine::Reads(_, frame) => take_said(actors, said, who, frame),
        OwnLine::Does(event) => take_event(actors, who, event),
    }
}

impl Judge {
    /// A judge of journals that begin in this world.
    ///
    /// The only error is that there is no memory.
    pub fn new(alloc: Global, world: World) -> Result<Judge, AllocError>
        requires { Unit {0} }
        ensures { IfOk result (λ j. IsOf j world) }
    {
        let mut actors = Actors::of(world);
        let mut said = SaidFrames::new(alloc);
        match said.take_in(&mut actors) {
            Ok(()) => Ok(Judge { actors, said }),
            Err(fault) => Err(fault),
        }
    }

    /// Takes a line of the actor's journal.
    ///
    /// The only error is that there is no memory, also for more than `MAX_MESSAGES` messages that one event says.
    pub fn take(&mut self, who: &Actor, line: &OwnLine) -> Result<Offer, AllocError>
        requires { Unit {0} }
        ensures { (w : ExactWorld) → IsOf self.old w → (v : ExactWorld) × JudgesLine w who.now line.now result v × IfOk result (λ o. GoesOn o → IsOf self.new v) }
    {
        steps_change_one_part();
        let Ok(offer) = take_any(&mut self.actors, &self.said, who, line) else {
            return Err(AllocError);
        };
        match self.said.take_in(&mut self.actors) {
            Ok(()) => Ok(offer),
            Err(fault) => Err(fault),
        }
    }
}

// Lines of events that read a message.

ghost use Rattle.std.specs.Prelude.{◌≡◌, ℕ, List};
ghost use Rattle.own_journals.specs.declared.lines.OwnLine.TheVariants as own;
ghost use Rattle.frame_numbers.specs.FrameNumbers.{HasFrame, IsIndexOf, Seen};
ghost use Rattle.line_merger.specs.Offers.{TakesLine, TriesLine};
ghost use Rattle.line_merger.specs.Reasons.{reading_by};

use crate::offers::{offered, tried};
use crate::{MergeFault, Offer, Taken};
use bytes::Bytes;
use frame_numbers::laws::indexes_grow;
use frame_numbers::{FrameNumbers, is_message};
use lock_messages::Actor;
use lock_messages::laws::one_spelling;
use world_machine::Actors;
use world_model::Event;
use world_model::laws::steps_change_one_part;

/// The event by which the actor reads the message of this number.
pub fn reading_by(who: &Actor, number: u32) -> Event
    ensures { result ≡ reading_by who.now number }
{
    match *who {
        Actor::Node(id) => Event::Take(id, number),
        Actor::Client(id) => Event::Hear(id, number),
    }
}

/// Takes a line that reads the message of this number, which has the frame of the line.
pub(crate) fn take_numbered(
    actors: &mut Actors,
    who: &Actor,
    number: u32,
) -> Result<Offer, MergeFault>
    ensures takes { (frame : List ℕ) → HasFrame actors.old.sent number frame → TakesLine actors.old who.now (own.Reads who.now frame) result actors.new }
    ensures index { (s : Seen) → IsIndexOf s actors.old.sent → IsIndexOf s actors.new.sent }
{
    steps_change_one_part();
    one_spelling();
    indexes_grow();
    actors.room();
    let Some(message) = actors.sent(number) else {
        return Ok(Offer::Waits);
    };
    is_message(&message);
    let event = reading_by(who, number);
    offered(Taken::Read(number), actors.step(&event))
}

/// Takes a line that reads the message of this frame. The numbers are those of the actors' messages.
///
/// # Errors
///
/// `Full` if the list of messages is full, `Memory` if there is no memory.
pub fn take_frame(
    actors: &mut Actors,
    numbers: &mut FrameNumbers,
    who: &Actor,
    frame: &Bytes,
) -> Result<Offer, MergeFault>
    requires { IsIndexOf numbers.old actors.old.sent }
    ensures takes { TakesLine actors.old who.now (own.Reads who.now frame.now) result actors.new }
    ensures index { IsIndexOf numbers.new actors.new.sent }
{
    let Ok(()) = numbers.catch_up(actors) else {
        return Err(MergeFault::Memory);
    };
    match numbers.number_of(frame) {
        Some(number) => take_numbered(actors, who, number),
        None => Ok(Offer::Waits),
    }
}

/// Takes a line that reads the message of this frame, if that is one that was said lately. `None` says nothing: the message
/// may have been said before, or not at all. The numbers are those of the actors' messages.
///
/// # Errors
///
/// `Full` if the list of messages is full, `Memory` if there is no memory.
pub(crate) fn take_lately(
    actors: &mut Actors,
    numbers: &mut FrameNumbers,
    who: &Actor,
    frame: &Bytes,
) -> Result<Option<Offer>, MergeFault>
    requires { IsIndexOf numbers.old actors.old.sent }
    ensures takes { TriesLine actors.old who.now (own.Reads who.now frame.now) result actors.new }
    ensures index { IsIndexOf numbers.new actors.new.sent }
{
    let Ok(found) = numbers.number_lately(actors, frame) else {
        return Err(MergeFault::Memory);
    };
    match found {
        Some(number) => tried(take_numbered(actors, who, number)),
        None => Ok(None),
    }
}

// Lines of any kind.

ghost use Rattle.std.specs.Prelude.{◌≡◌, ◌==◌, not, IfOk};
ghost use Rattle.world_model.specs.Parts.{place};
ghost use Rattle.own_journals.specs.declared.lines.OwnLine.TheVariants as own;
ghost use Rattle.frame_numbers.specs.FrameNumbers.{IsIndexOf};
ghost use Rattle.line_merger.specs.Offers.{GoesOn, TakesLine, TriesLine, TryGoesOn};

use crate::events::place;
use crate::offers::tried;
use crate::readings::take_lately;
use crate::{MergeFault, Offer, Refusal, take_event, take_frame, take_life};
use bytes::Bytes;
use frame_numbers::FrameNumbers;
use frame_numbers::laws::indexes_grow;
use lock_messages::Actor;
use own_journals::OwnLine;
use world_machine::Actors;
use world_model::laws::steps_change_one_part;

/// Whether the two are not the same actor.
fn is_another(one: &Actor, other: &Actor) -> bool
    ensures { result ≡ not (place one.now == place other.now) }
{
    place(*one) != place(*other)
}

/// Takes a line by which a life begins, maybe of another actor than the journal's.
pub(crate) fn take_life_of(
    actors: &mut Actors,
    who: &Actor,
    whose: &Actor,
    found: &Bytes,
) -> Result<Offer, MergeFault>
    ensures { TakesLine actors.old who.now (own.Life whose.now found.now) result actors.new }
{
    if is_another(whose, who) {
        return Ok(Offer::Refused(Refusal::OtherActor));
    }
    take_life(actors, who, found)
}

/// Takes a line of the actor's journal. The numbers are those of the actors' messages, and stay so if the line is
/// taken or waits.
///
/// # Errors
///
/// `Full` if the list of messages is full, `Memory` if there is no memory.
pub fn take_line(
    actors: &mut Actors,
    numbers: &mut FrameNumbers,
    who: &Actor,
    line: &OwnLine,
) -> Result<Offer, MergeFault>
    requires { IsIndexOf numbers.old actors.old.sent }
    ensures takes { TakesLine actors.old who.now line.now result actors.new }
    ensures index { IfOk result (λ o. GoesOn o → IsIndexOf numbers.new actors.new.sent) }
{
    steps_change_one_part();
    indexes_grow();
    match line {
        OwnLine::Life(whose, found) => take_life_of(actors, who, whose, found),
        OwnLine::Reads(_, frame) => take_frame(actors, numbers, who, frame),
        OwnLine::Does(event) => take_event(actors, who, event),
    }
}

/// Takes a line of the actor's journal, if it reads no message, or one that was said lately. `None` says nothing of the
/// line. The numbers are those of the actors' messages, and stay so unless the line is refused.
///
/// It is cheaper than `take_line`, which takes each message in that was said.
///
/// # Errors
///
/// `Full` if the list of messages is full, `Memory` if there is no memory.
pub fn try_line(
    actors: &mut Actors,
    numbers: &mut FrameNumbers,
    who: &Actor,
    line: &OwnLine,
) -> Result<Option<Offer>, MergeFault>
    requires { IsIndexOf numbers.old actors.old.sent }
    ensures takes { TriesLine actors.old who.now line.now result actors.new }
    ensures index { IfOk result (λ o. TryGoesOn o → IsIndexOf numbers.new actors.new.sent) }
{
    steps_change_one_part();
    indexes_grow();
    match line {
        OwnLine::Life(whose, found) => tried(take_life_of(actors, who, whose, found)),
        OwnLine::Reads(_, frame) => take_lately(actors, numbers, who, frame),
        OwnLine::Does(event) => tried(take_event(actors, who, event)),
    }
}

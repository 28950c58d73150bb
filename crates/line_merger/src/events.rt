// Lines of events that read no message.

ghost use Rattle.std.specs.Prelude.{◌≡◌, not};
ghost use Rattle.own_journals.specs.declared.lines.OwnLine.TheVariants as own;
ghost use Rattle.world_model.specs.Kinds.{kind_of, is_reading};
ghost use Rattle.world_model.specs.Parts.{place, is_own};
ghost use Rattle.line_merger.specs.Offers.{TakesLine};

use crate::offers::offered;
use crate::{MergeFault, Offer, Refusal, Taken};
use lock_messages::Actor;
use world_machine::Actors;
use world_model::Event;
use world_model::laws::steps_change_one_part;

/// Whether the event reads a message.
fn reads(event: &Event) -> bool
    ensures { result ≡ is_reading (kind_of event.now) }
{
    matches!(event, Event::Take(..) | Event::Hear(..))
}

/// A number for each actor, of which no other has the same.
pub(crate) fn place(actor: Actor) -> u32
    ensures { result ≡ place actor }
{
    match actor {
        Actor::Node(id) => 2 * u32::from(id.get()),
        Actor::Client(id) => 2 * u32::from(id.get()) + 1,
    }
}

/// Whether the event is another actor's than this one's.
fn is_of_another(event: &Event, who: &Actor) -> bool
    ensures { result ≡ not (is_own who.now event.now) }
{
    place(event.actor()) != place(*who)
}

/// Takes a line of an event that reads no message.
pub fn take_event(actors: &mut Actors, who: &Actor, event: &Event) -> Result<Offer, MergeFault>
    requires { Unit {0} }
    ensures { TakesLine actors.old who.now (own.Does event.now) result actors.new }
{
    steps_change_one_part();
    if is_of_another(event, who) {
        return Ok(Offer::Refused(Refusal::OtherActor));
    }
    if reads(event) {
        return Ok(Offer::Refused(Refusal::OtherActor));
    }
    offered(Taken::Said, actors.step(event))
}

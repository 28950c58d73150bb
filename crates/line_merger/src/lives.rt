// Lines by which lives begin.

ghost use Rattle.std.specs.Prelude.{◌≡◌, ◌≢◌, ℕ, List, Some, Ok};
ghost use Rattle.world_model.specs.declared.exact.ExactWorld.{ExactWorld};
ghost use Rattle.world_model.specs.Parts.{part};
ghost use Rattle.merge_model.specs.Lives.{kept_record};
ghost use Rattle.own_journals.specs.declared.lines.OwnLine.TheVariants as own;
ghost use Rattle.line_merger.specs.Offers.{TakesLine};
ghost use Rattle.line_merger.specs.Lives.{Finds, Fell, fallen, Falls, settled};

use crate::offers::{offered, refused};
use crate::{MergeFault, Offer, Refusal, Taken};
use bytes::Bytes;
use lock_messages::Actor;
use world_machine::Actors;
use world_model::laws::steps_change_one_part;
use world_model::{Age, Effect, Event, StepFault};

/// Whether the actor has kept a record of these bytes.
#[tactic(auto, using(crate::proofs::LifeOffers::finds_bytes, crate::proofs::LifeOffers::finds_fault))]
fn finds(actors: &Actors, who: &Actor, found: &Bytes) -> Result<bool, StepFault>
    ensures { Finds actors.now who.now found.now result }
{
    match actors.kept_bytes(*who) {
        Ok(kept) => Ok(kept.as_slice() == &**found),
        Err(fault) => Err(fault),
    }
}

/// Whether the actor fell by this step: not if it was down.
fn fell(step: Result<Effect, StepFault>) -> Result<bool, StepFault>
    ensures { result ≡ fallen step }
{
    match step {
        Ok(_) => Ok(true),
        Err(StepFault::Down) => Ok(false),
        Err(fault) => Err(fault),
    }
}

/// The actor falls, unless it is down. Returns whether it fell.
fn fall(actors: &mut Actors, who: &Actor) -> Result<bool, StepFault>
    ensures { Falls actors.old who.now result actors.new }
{
    steps_change_one_part();
    fell(actors.step(&Event::Fall(*who)))
}

/// The actor rises with what it has kept, which is what was found.
fn rise_old(actors: &mut Actors, who: &Actor, fell: bool) -> Result<Offer, MergeFault>
    ensures { (w : ExactWorld) (found : List ℕ) → Fell w who.now fell actors.old → kept_record who.now (part w who.now) ≡ Some found → TakesLine w who.now (own.Life who.now found) result actors.new }
{
    steps_change_one_part();
    actors.room();
    let taken = Taken::Rose(fell, Age::Old);
    offered(taken, actors.step(&Event::Rise(*who, Age::Old)))
}

/// What comes of a rise with what was tried, by whether that is what was found.
fn settled(taken: Taken, finds: Result<bool, StepFault>) -> Result<Offer, MergeFault>
    ensures { result ≡ settled taken finds }
{
    match finds {
        Ok(true) => Ok(Offer::Took(taken)),
        Ok(false) => Ok(Offer::Refused(Refusal::OtherRecord)),
        Err(_) => Err(MergeFault::Memory),
    }
}

/// The actor rises with what it tried to keep, if that is what was found.
fn rise_new(
    actors: &mut Actors,
    who: &Actor,
    found: &Bytes,
    fell: bool,
) -> Result<Offer, MergeFault>
    ensures { (w : ExactWorld) → Fell w who.now fell actors.old → kept_record who.now (part w who.now) ≢ Some found.now → TakesLine w who.now (own.Life who.now found.now) result actors.new }
{
    steps_change_one_part();
    actors.room();
    match actors.step(&Event::Rise(*who, Age::New)) {
        Ok(_) => settled(Taken::Rose(fell, Age::New), finds(actors, who, found)),
        Err(fault) => refused(fault),
    }
}

/// The actor rises with what was found, by whether that is what it has kept.
fn rise(
    actors: &mut Actors,
    who: &Actor,
    found: &Bytes,
    fell: bool,
    old: bool,
) -> Result<Offer, MergeFault>
    ensures { (w : ExactWorld) → Fell w who.now fell actors.old → Finds w who.now found.now (Ok old) → TakesLine w who.now (own.Life who.now found.now) result actors.new }
{
    if old {
        rise_old(actors, who, fell)
    } else {
        rise_new(actors, who, found, fell)
    }
}

/// Takes a line by which a life of the actor begins: its process found these bytes in the record.
///
/// The actor falls unless it is down. It rises old if it has kept these bytes, else new if it tried to keep them. If
/// it did neither, the line is refused, and the actor is as far as the attempt came.
///
/// # Errors
///
/// `Memory` if there is no memory.
#[tactic(auto, using(crate::proofs::LifeOffers::finds_offered, crate::proofs::LifeOffers::falls_offered))]
pub fn take_life(actors: &mut Actors, who: &Actor, found: &Bytes) -> Result<Offer, MergeFault>
    requires { Unit {0} }
    ensures { TakesLine actors.old who.now (own.Life who.now found.now) result actors.new }
{
    let old = match finds(actors, who, found) {
        Ok(old) => old,
        Err(fault) => return refused(fault),
    };
    match fall(actors, who) {
        Ok(fell) => rise(actors, who, found, fell, old),
        Err(fault) => refused(fault),
    }
}

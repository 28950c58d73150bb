// What came of a line.

ghost use Rattle.std.specs.Prelude.{◌≡◌};
ghost use Rattle.line_merger.specs.Offers.{offered, refused, tried};

use thiserror::Error;
use world_model::{Age, Effect, StepFault};

/// Why the actor can't do what a line says.
#[derive(Clone, Copy, Debug, PartialEq, Eq)]
pub enum Refusal {
    /// The line is another actor's.
    OtherActor,
    /// The record is neither what the actor kept nor what it tried to keep.
    OtherRecord,
    /// The actor refuses the event so.
    Step(StepFault),
}

/// By which events a line of an actor was taken. It is small, since each line has one.
#[derive(Clone, Copy, Debug, PartialEq, Eq)]
pub enum Taken {
    /// By the event that it says.
    Said,
    /// By an event that reads the message of this number.
    Read(u32),
    /// By a rise of the actor, after a fall if this says so.
    Rose(bool, Age),
}

/// What came of a line.
#[derive(Clone, Copy, Debug, PartialEq, Eq)]
pub enum Offer {
    /// It was taken, by these events.
    Took(Taken),
    /// It waits: nobody said yet what it reads.
    Waits,
    /// It is refused, whatever is said.
    Refused(Refusal),
}

/// Why nothing came of a line.
#[derive(Clone, Copy, Debug, PartialEq, Eq, Error)]
pub enum MergeFault {
    /// The list of messages is full.
    #[error("the list of messages is full")]
    Full,
    /// Out of memory.
    #[error("out of memory")]
    Memory,
}

/// What came of a line whose event was refused so.
pub fn refused(fault: StepFault) -> Result<Offer, MergeFault>
    ensures { result ≡ refused fault }
{
    match fault {
        StepFault::SentListFull => Err(MergeFault::Full),
        StepFault::Memory => Err(MergeFault::Memory),
        fault => Ok(Offer::Refused(Refusal::Step(fault))),
    }
}

/// What came of a line whose last event was stepped, if it is taken by these events.
pub fn offered(taken: Taken, step: Result<Effect, StepFault>) -> Result<Offer, MergeFault>
    ensures { result ≡ offered taken step }
{
    match step {
        Ok(_) => Ok(Offer::Took(taken)),
        Err(fault) => refused(fault),
    }
}

/// What comes of a line that is only tried, if this came of taking it.
pub(crate) fn tried(offer: Result<Offer, MergeFault>) -> Result<Option<Offer>, MergeFault>
    ensures { result ≡ tried offer }
{
    match offer {
        Ok(offer) => Ok(Some(offer)),
        Err(fault) => Err(fault),
    }
}

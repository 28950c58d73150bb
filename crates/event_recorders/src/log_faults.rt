// Why a log refuses what it is asked.

ghost use Rattle.std.specs.Prelude.{◌≡◌};
ghost use Rattle.event_recorders.specs.LogFaults.{log_fault_number};

use thiserror::Error;
use world_model::StepFault;

/// Why a log refuses what it is asked. Programs print the number.
#[derive(Clone, Copy, Debug, PartialEq, Eq, Error)]
pub enum LogFault {
    /// 811: the event is none that may happen now, for this reason.
    #[error("the event can't happen now: {0}")]
    NotAStep(StepFault),
    /// 812: nothing more can be logged. Of a book the history or the list of messages is full; a log of the actor's own
    /// can't be written.
    #[error("the history or the list of messages is full, or the log can't be written")]
    Full,
    /// 813: memory was refused.
    #[error("there was no memory")]
    Memory,
    /// 814: the event is another actor's.
    #[error("the event is not of the berth's actor")]
    OtherActor,
    /// 815: the berth has another book's number.
    #[error("the berth is another book's")]
    OtherBook,
}

impl LogFault {
    /// The number by which programs print the fault: 811 to 815.
    pub fn number(self) -> u16
        ensures { result ≡ log_fault_number self }
    {
        match self {
            LogFault::NotAStep(_) => 811,
            LogFault::Full => 812,
            LogFault::Memory => 813,
            LogFault::OtherActor => 814,
            LogFault::OtherBook => 815,
        }
    }
}

// A record in a box.

ghost use Rattle.std.specs.Prelude.{◌≡◌};

use crate::{LogFault, OwnRecord, Recorder};
use lock_messages::Message;
use stable_record::{RecordFault, StableRecord};
use world_model::{Effect, Event};

/// The record in a box, whatever its type is, as a record that an actor can own.
#[derive(Drop)]
pub struct BoxedRecord {
    record: Box<dyn StableRecord + Send>,
}

impl BoxedRecord {
    /// The record in this box.
    pub fn of(boxed: Box<dyn StableRecord + Send>) -> BoxedRecord
        ensures { result.record ≡ boxed }
    {
        BoxedRecord { record: boxed }
    }
}

impl StableRecord for BoxedRecord {
    ghost finds = { λ r. (StableRecord-box r.record).finds r.record.value };

    ghost stuck_of = { λ r. (StableRecord-box r.record).stuck_of r.record.value };

    ghost spent_of = { λ r. (StableRecord-box r.record).spent_of r.record.value };

    ghost failures_of = { λ r. (StableRecord-box r.record).failures_of r.record.value };

    fn keep(&mut self, bytes: &[u8]) -> Result<(), RecordFault> {
        self.record.keep(bytes)
    }

    fn reopen(&mut self) -> Result<Vec<u8>, RecordFault> {
        self.record.reopen()
    }

    fn stuck(&self) -> bool {
        self.record.stuck()
    }

    fn failures(&self) -> u64 {
        self.record.failures()
    }
}

impl OwnRecord for BoxedRecord {
    fn log<R: Recorder>(&self, recorder: &mut R, event: Event) -> Result<Effect, LogFault> {
        recorder.log(event, &*self.record)
    }

    fn log_reading<R: Recorder>(
        &self,
        recorder: &mut R,
        event: Event,
        message: &Message,
    ) -> Result<Effect, LogFault> {
        recorder.log_reading(event, message, &*self.record)
    }
}

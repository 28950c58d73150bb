// A record that is lent.

ghost use Rattle.std.specs.Prelude.{◌≡◌};

use crate::{LogFault, OwnRecord, Recorder};
use lock_messages::Message;
use stable_record::{RecordFault, StableRecord};
use world_model::{Effect, Event};

/// A record that its owner lends to a client. Whatever becomes of the client, and of the service that it belongs
/// to, the owner has the record back, as it was kept last.
#[derive(Drop)]
pub struct LentRecord<'a, S> {
    lent: &'a mut S,
}

impl<'a, S: OwnRecord> LentRecord<'a, S> {
    /// Lends this record.
    pub fn of(lent: &'a mut S) -> LentRecord<'a, S>
        ensures { result.lent ≡ lent.entry }
    {
        LentRecord { lent }
    }
}

impl<S: OwnRecord> StableRecord for LentRecord<'_, S> {
    ghost finds = { λ r. S.StableRecord.finds r.lent.now };

    ghost stuck_of = { λ r. S.StableRecord.stuck_of r.lent.now };

    ghost spent_of = { λ r. S.StableRecord.spent_of r.lent.now };

    ghost failures_of = { λ r. S.StableRecord.failures_of r.lent.now };

    fn keep(&mut self, bytes: &[u8]) -> Result<(), RecordFault> {
        self.lent.keep(bytes)
    }

    fn reopen(&mut self) -> Result<Vec<u8>, RecordFault> {
        self.lent.reopen()
    }

    fn stuck(&self) -> bool {
        self.lent.stuck()
    }

    fn failures(&self) -> u64 {
        self.lent.failures()
    }
}

impl<S: OwnRecord> OwnRecord for LentRecord<'_, S> {
    fn log<R: Recorder>(&self, recorder: &mut R, event: Event) -> Result<Effect, LogFault> {
        self.lent.log(recorder, event)
    }

    fn log_reading<R: Recorder>(
        &self,
        recorder: &mut R,
        event: Event,
        message: &Message,
    ) -> Result<Effect, LogFault> {
        self.lent.log_reading(recorder, event, message)
    }
}

// A record on a file, as a type that a session can own.

use event_recorders::{LogFault, OwnRecord, Recorder};
use file_records::FileRecord;
use lock_messages::Message;
use stable_record::{RecordFault, StableRecord};
use world_model::{Effect, Event};

/// A record on a file. It passes each call on.
#[derive(Drop)]
pub struct SessionFile {
    pub record: FileRecord,
}

impl StableRecord for SessionFile {
    ghost use Rattle.std.specs.Prelude.{nat_le};
    ghost use Rattle.slot_record.specs.declared.slots.TheConstants.{MAX_SEQUENCE};
    ghost use Rattle.file_plate.specs.FilePlates.{file_state};

    ghost finds = { λ r. r.record.finds };

    ghost stuck_of = { λ r. r.record.stuck };

    ghost spent_of = { λ r. nat_le MAX_SEQUENCE r.record.sequence };

    ghost failures_of = { λ r. (file_state r.record.plate).failures };

    fn keep(&mut self, bytes: &[u8]) -> Result<(), RecordFault> {
        self.record.keep(bytes)
    }

    fn reopen(&mut self) -> Result<Vec<u8>, RecordFault> {
        self.record.reopen()
    }

    fn stuck(&self) -> bool {
        self.record.stuck()
    }

    fn failures(&self) -> u64 {
        self.record.failures()
    }
}

impl OwnRecord for SessionFile {
    fn log<R: Recorder>(&self, recorder: &mut R, event: Event) -> Result<Effect, LogFault> {
        recorder.log(event, self)
    }

    fn log_reading<R: Recorder>(
        &self,
        recorder: &mut R,
        event: Event,
        message: &Message,
    ) -> Result<Effect, LogFault> {
        recorder.log_reading(event, message, self)
    }
}

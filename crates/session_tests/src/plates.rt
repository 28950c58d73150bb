// A record on a plate, as a program's own type that a session can own.

ghost use Rattle.std.specs.Prelude.{◌≡◌, ◌∷◌, [], IfOk};

use event_recorders::{LogFault, OwnRecord, Recorder};
use lock_messages::Message;
use slot_record::{MemoryPlate, SlotRecord};
use stable_record::{RecordFault, StableRecord};
use std::alloc::Global;
use test_outcomes::Failure;
use world_model::{Effect, Event};

/// A record on a plate in memory. No session can own a `SlotRecord` of any plate, so this one's type has a name
/// of its own, and hands each call on.
#[derive(Drop)]
pub(crate) struct PlateRecord {
    record: SlotRecord<MemoryPlate>,
}

/// A record of these bytes on a plate whose calls fail from that one on.
pub(crate) fn on_a_plate(alloc: Global, bytes: &[u8], fuse: u32) -> Result<PlateRecord, Failure>
    ensures { IfOk result (λ r. r.record.finds ≡ bytes.now ∷ []) }
{
    let record = test_support::on_a_plate(alloc, bytes, fuse)?;
    Ok(PlateRecord { record })
}

impl StableRecord for PlateRecord {
    ghost use Rattle.std.specs.Prelude.{nat_le};
    ghost use Rattle.slot_record.specs.declared.slots.TheConstants.{MAX_SEQUENCE};
    ghost use Rattle.slot_record.specs.MemoryPlates.{state_of};

    ghost finds = { λ r. r.record.finds };

    ghost stuck_of = { λ r. r.record.stuck };

    ghost spent_of = { λ r. nat_le MAX_SEQUENCE r.record.sequence };

    ghost failures_of = { λ r. (state_of r.record.plate).failures };

    fn keep(&mut self, bytes: &[u8]) -> Result<(), RecordFault> {
        self.record.keep(bytes)
    }

    fn reopen(&mut self) -> Result<Vec<u8>, RecordFault> {
        self.record.reopen()
    }

    fn stuck(&self) -> bool {
        self.record.stuck()
    }

    fn failures(&self) -> u64 {
        self.record.failures()
    }
}

impl OwnRecord for PlateRecord {
    fn log<R: Recorder>(&self, recorder: &mut R, event: Event) -> Result<Effect, LogFault> {
        recorder.log(event, self)
    }

    fn log_reading<R: Recorder>(
        &self,
        recorder: &mut R,
        event: Event,
        message: &Message,
    ) -> Result<Effect, LogFault> {
        recorder.log_reading(event, message, self)
    }
}

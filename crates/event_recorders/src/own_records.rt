// A record that hands itself to a recorder.

ghost use Rattle.std.specs.Prelude.{◌≡◌, true, None, IfOk, IfErr};
ghost use Rattle.lock_messages.specs.Messages.{is_for};
ghost use Rattle.world_model.specs.Parts.{is_own, own_refusal};
ghost use Rattle.event_recorders.specs.OwnLogs.{part_now, FindsAfter, IsAdded, IsRecorderFault, reads};

use crate::{LogFault, Recorder};
use lock_messages::Message;
use stable_record::{FaultyRecord, MemoryRecord, StableRecord};
use world_model::{Effect, Event};

/// An actor's own record: it hands itself to the recorder by which its actor logs.
///
/// A `Recorder` takes a record as `&dyn`, and of a value whose type is a parameter no `&dyn` can be made. So each type of
/// record makes it for itself: each method is one line, the recorder's call of its name with `self` as the record, and has
/// that call's contract.
/// A body in the trait would make the &dyn of Self, and an impl for SlotRecord<P> one of a type that names a parameter: CI
/// refuses both. So a program on disks has a struct of its own, as session_tests has.
pub trait OwnRecord: StableRecord {
    /// `Recorder::log` with this record.
    fn log<R: Recorder>(&self, recorder: &mut R, event: Event) -> Result<Effect, LogFault>
        requires own { is_own (R.own_log recorder.old).actor event ≡ true }
        requires allowed { own_refusal (R.own_log recorder.old).ballots event (part_now (R.own_log recorder.old)) ≡ None }
        requires found { FindsAfter (R.own_log recorder.old) event (Self.finds self.now) }
        ensures logged { IfOk result (λ done. IsAdded (R.own_log recorder.old) event done (R.own_log recorder.new)) }
        ensures refused { IfErr result (λ fault. IsRecorderFault event fault × (R.own_log recorder.new ≡ R.own_log recorder.old)) };

    /// `Recorder::log_reading` with this record.
    fn log_reading<R: Recorder>(
        &self,
        recorder: &mut R,
        event: Event,
        message: &Message,
    ) -> Result<Effect, LogFault>
        requires own { is_own (R.own_log recorder.old).actor event ≡ true }
        requires allowed { own_refusal (R.own_log recorder.old).ballots event (part_now (R.own_log recorder.old)) ≡ None }
        requires reading { reads event ≡ true }
        requires addressed { is_for (R.own_log recorder.old).actor message.now ≡ true }
        requires found { FindsAfter (R.own_log recorder.old) event (Self.finds self.now) }
        ensures logged { IfOk result (λ done. IsAdded (R.own_log recorder.old) event done (R.own_log recorder.new)) }
        ensures refused { IfErr result (λ fault. IsRecorderFault event fault × (R.own_log recorder.new ≡ R.own_log recorder.old)) };
}

impl OwnRecord for MemoryRecord {
    fn log<R: Recorder>(&self, recorder: &mut R, event: Event) -> Result<Effect, LogFault> {
        recorder.log(event, self)
    }

    fn log_reading<R: Recorder>(
        &self,
        recorder: &mut R,
        event: Event,
        message: &Message,
    ) -> Result<Effect, LogFault> {
        recorder.log_reading(event, message, self)
    }
}

impl OwnRecord for FaultyRecord {
    fn log<R: Recorder>(&self, recorder: &mut R, event: Event) -> Result<Effect, LogFault> {
        recorder.log(event, self)
    }

    fn log_reading<R: Recorder>(
        &self,
        recorder: &mut R,
        event: Event,
        message: &Message,
    ) -> Result<Effect, LogFault> {
        recorder.log_reading(event, message, self)
    }
}

// Records on plates.

ghost use Rattle.std.specs.Prelude.{◌≡◌, ◌↔◌, ◌⊎◌, ◌+◌, ◌<◌, ◌≤◌, [], ◌∷◌, ◌++◌, length, Some, Err, OnOk, IfOk, IfErr};
ghost use Rattle.stable_record.specs.Finding.{IsOneOrTwo};
ghost use Rattle.slot_record.specs.Images.{Image};
ghost use Rattle.slot_record.specs.Plates.{FailedOnce, LeavesOnly};
ghost use Rattle.slot_record.specs.Promises.{HasJust, Opens, FailsToOpen, FindsSome, RefusesToKeep, FailsToKeep, FailsOnceAtMost, LeavesAsBefore, Reopens, FailsToReopen};
ghost use Rattle.slot_record.specs.Slots.{record_on};
ghost use Rattle.slot_record.specs.Faults.{fault_of};
ghost use Rattle.slot_record.specs.Records.{FindsAmong, IsFormatFault, IsOpenFault};

use crate::entries::{BUFFER_LEN, zeros};
use crate::finding::find;
use crate::formatting::lay_out;
use crate::keeping::keep_body;
use crate::slots::{LEAST_PLATE_LEN, MAX_SEQUENCE};
use crate::standing::{Known, Standing};
use crate::{Plate, PlateFault, SlotFault};
use stable_record::{MAX_RECORD_LEN, RecordFault, StableRecord};
use std::alloc::Global;
use std::marker::Model;

/// A record that lives in two slots of a plate and survives any moment of a crash.
///
/// Whatever moment the power goes, opening finds the body that was kept last or, while a keep was
/// open or had failed, that body or the one tried. Nobody else may write the plate. Contracts see
/// the plate, the sequence of the slot that has the record, the bodies, one or two, one of which
/// opening now may find, and whether the record is stuck. The rule of the two slots is our own.
#[derive(Drop)]
pub struct SlotRecord<P: Plate> {
    alloc: Global,
    device: P,
    buffer: Vec<u8>,
    known: Known,
    standing: Standing,
}

impl<P: Plate> Model for SlotRecord<P> {
    ghost use Rattle.slot_record.specs.Promises.{OnPlate};
    ghost use Rattle.slot_record.specs.Records.{IsOnPlate, bodies_on, is_stuck};

    ghost Value = { OnPlate P };

    ghost view = { λ r. record { plate = r.device; sequence = r.known.sequence; finds = bodies_on r.standing r.known.own (P.state r.device).seen; stuck = is_stuck r.standing } };

    ghost invariant = { λ r. IsOnPlate (P.state r.device) r.known r.standing r.buffer.items };
}

impl<P: Plate> SlotRecord<P> {
    /// Makes a plate the home of a record, which holds these bytes.
    ///
    /// Before the device is called the first of these is answered, with the plate untouched: 401 (the
    /// plate has fewer than `LEAST_PLATE_LEN` bytes), 404 (more than `MAX_RECORD_LEN` bytes), 406
    /// (memory was refused). Then 402 (a device call failed): nothing is promised of such a plate.
    pub fn format(alloc: Global, plate: P, bytes: &[u8]) -> Result<SlotRecord<P>, (P, SlotFault)>
        // Opening finds just these bytes from now on, and no device call failed.
        ensures formatted { IfOk result (λ r. HasJust record_on (P.state plate) (P.state r.plate) r 1 bytes.now) }
        // Nothing else is answered.
        ensures faults { IfErr result (λ e. IsFormatFault e.1) }
        ensures too_small { (fault_of result ≡ Some SlotFault.TooSmall) ↔ ((P.state plate).size < LEAST_PLATE_LEN) }
        ensures too_long { (fault_of result ≡ Some SlotFault.TooLong) ↔ ((LEAST_PLATE_LEN ≤ (P.state plate).size) × (MAX_RECORD_LEN < length bytes.now)) }
        // 401, 404 and 406 come before the device is called.
        ensures untouched { IfErr result (λ e. (e.1 ≡ SlotFault.Device) ⊎ (e.0 ≡ plate)) }
        // 402: one device call failed, which ended the work.
        ensures device { IfErr result (λ e. e.1 ≡ SlotFault.Device → FailedOnce (P.state plate).failures (P.state e.0).failures) }
    {
        if plate.size() < LEAST_PLATE_LEN {
            return Err((plate, SlotFault::TooSmall));
        }
        if bytes.len() > MAX_RECORD_LEN {
            return Err((plate, SlotFault::TooLong));
        }
        let Ok(mut buffer) = zeros(alloc, BUFFER_LEN) else {
            return Err((plate, SlotFault::Memory));
        };
        let mut device = plate;
        match lay_out(&mut device, &mut buffer, bytes) {
            Ok(known) => Ok(SlotRecord {
                alloc,
                device,
                buffer,
                known,
                standing: Standing::Settled,
            }),
            Err(PlateFault) => Err((device, SlotFault::Device)),
        }
    }

    /// Finds the record of a plate, whatever a crash made of it, and its bytes: four device calls.
    ///
    /// Before the device is called the first of these is answered, with the plate untouched: 401 (the
    /// plate has fewer than `LEAST_PLATE_LEN` bytes), 406 (memory was refused). Then 402 (a device
    /// call failed), and 403 (no slot counts); a crash then leaves nothing that it could not leave
    /// before.
    pub fn open(alloc: Global, plate: P) -> Result<(SlotRecord<P>, Vec<u8>), (P, SlotFault)>
        // It is the record of one of the images that a crash could leave, and from now on opening finds just this one.
        ensures opened { IfOk result (λ r. Opens record_on (P.state plate) (P.state r.0.plate) r.0 r.1.items) }
        // Nothing else is answered.
        ensures faults { IfErr result (λ e. IsOpenFault e.1) }
        ensures too_small { (fault_of result ≡ Some SlotFault.TooSmall) ↔ ((P.state plate).size < LEAST_PLATE_LEN) }
        // 401 and 406 come before the device is called.
        ensures untouched { IfErr result (λ e. (e.1 ≡ SlotFault.Device) ⊎ (e.1 ≡ SlotFault.NotFormatted) ⊎ (e.0 ≡ plate)) }
        // 402 comes only if a device call failed, and 403 only if no slot counts.
        ensures failed { IfErr result (λ e. FailsToOpen record_on (P.state plate) (P.state e.0) e.1) }
    {
        if plate.size() < LEAST_PLATE_LEN {
            return Err((plate, SlotFault::TooSmall));
        }
        let Ok(buffer) = zeros(alloc, BUFFER_LEN) else {
            return Err((plate, SlotFault::Memory));
        };
        let Ok(mut body) = zeros(alloc, MAX_RECORD_LEN) else {
            return Err((plate, SlotFault::Memory));
        };
        let mut device = plate;
        match find(&mut device, &mut body) {
            Ok(Some(known)) => {
                let record = SlotRecord {
                    alloc,
                    device,
                    buffer,
                    known,
                    standing: Standing::Settled,
                };
                Ok((record, body))
            }
            Ok(None) => Err((device, SlotFault::NotFormatted)),
            Err(PlateFault) => Err((device, SlotFault::Device)),
        }
    }

    /// The plate, as the calls left it.
    pub fn into_plate(self) -> P
        ensures plate { result ≡ self.plate }
        // Opening finds one of the bodies on it, whatever a crash leaves.
        ensures found { (c : Image) → (P.state result).may_leave c → FindsAmong self.finds c }
    {
        let SlotRecord { device, .. } = self;
        device
    }
}

impl<P: Plate> StableRecord for SlotRecord<P> {
    ghost use Rattle.std.specs.Prelude.{nat_le};
    ghost use Rattle.slot_record.specs.declared.slots.TheConstants.{MAX_SEQUENCE as LAST};

    ghost finds = { λ r. r.finds };

    ghost stuck_of = { λ r. r.stuck };

    ghost spent_of = { λ r. nat_le LAST r.sequence };

    ghost failures_of = { λ r. (P.state r.plate).failures };

    /// Keeps these bytes in place of those before: four device calls, or six where the other
    /// slot's gate is open. It takes no memory but its plate's, and reads nothing.
    ///
    /// Before the device is called the first of these is answered, and nothing has changed: 302
    /// (stuck), 303 (more than `MAX_RECORD_LEN` bytes), 305 (the record's sequence is
    /// `MAX_SEQUENCE`). The first device call that fails ends the work: 301, and the record is stuck.
    fn keep(&mut self, bytes: &[u8]) -> Result<(), RecordFault>
        // Opening finds just these bytes from now on, and no device call failed.
        ensures kept { OnOk result (HasJust record_on (P.state self.old.plate) (P.state self.new.plate) self.new (self.old.sequence + 1) bytes.now) }
        // At each moment of the call opening finds what it could find before, or these bytes.
        ensures moments { LeavesOnly (P.state self.old.plate) (P.state self.new.plate) (FindsAmong (self.old.finds ++ bytes.now ∷ [])) }
        // After it opening finds one of the bodies, whatever a crash leaves.
        ensures found { FindsSome record_on (P.state self.new.plate) self.new.finds }
        // 302, 303, 305: the first of them, before the device is called.
        ensures refused { RefusesToKeep self.old self.new bytes.now result }
        // 301.
        ensures device { result ≡ Err RecordFault.Device → FailsToKeep (P.state self.old.plate).failures (P.state self.new.plate).failures self.old bytes.now self.new }
        // The first device call that fails ends the work.
        ensures once { FailsOnceAtMost (P.state self.old.plate).failures (P.state self.new.plate).failures }
    {
        if self.standing.is_stuck() {
            return Err(RecordFault::Stuck);
        }
        if bytes.len() > MAX_RECORD_LEN {
            return Err(RecordFault::TooLong);
        }
        if self.known.sequence >= MAX_SEQUENCE {
            return Err(RecordFault::Spent);
        }
        match keep_body(&mut self.device, self.known, &mut self.buffer, bytes) {
            Ok(()) => {
                self.known = self.known.next();
                Ok(())
            }
            Err(standing) => {
                self.standing = standing;
                Err(RecordFault::Device)
            }
        }
    }

    /// What opening finds, and from now on just this: four device calls. 304 (memory was refused)
    /// comes before the device is called; after 301 (a device call failed) the record is stuck.
    fn reopen(&mut self) -> Result<Vec<u8>, RecordFault>
        // It returns bytes that opening could find, and from now on opening finds just these.
        ensures reopened { IfOk result (λ bytes. Reopens record_on (P.state self.old.plate) (P.state self.new.plate) self.old self.new bytes.items) }
        // A crash at any moment leaves what it could leave before,
        ensures moments { LeavesAsBefore (P.state self.old.plate) (P.state self.new.plate) }
        // on which opening finds one of the bodies.
        ensures found { FindsSome record_on (P.state self.old.plate) self.old.finds }
        // 301 and 304.
        ensures failed { FailsToReopen (P.state self.old.plate).failures (P.state self.new.plate).failures self.old self.new result }
        ensures some { IsOneOrTwo self.new.finds }
        // The first device call that fails ends the work.
        ensures once { FailsOnceAtMost (P.state self.old.plate).failures (P.state self.new.plate).failures }
    {
        let Ok(mut body) = zeros(self.alloc, MAX_RECORD_LEN) else {
            return Err(RecordFault::Memory);
        };
        match find(&mut self.device, &mut body) {
            Ok(Some(known)) => {
                self.known = known;
                self.standing = Standing::Settled;
                Ok(body)
            }
            Ok(None) => unreachable!(),
            Err(PlateFault) => {
                self.standing = self.standing.failed();
                Err(RecordFault::Device)
            }
        }
    }

    fn stuck(&self) -> bool
        ensures answer { result ≡ self.now.stuck }
        // Opening finds one of the bodies, whatever a crash leaves.
        ensures found { FindsSome record_on (P.state self.now.plate) self.now.finds }
    {
        self.standing.is_stuck()
    }

    fn failures(&self) -> u64 {
        self.device.failures()
    }
}

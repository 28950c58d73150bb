// Keeping a record: the other slot is closed, written and opened, with a sync behind each.

ghost use Rattle.std.specs.Prelude.{◌≡◌, ◌+◌, ◌<◌, ◌≤◌, [], ◌∷◌, length, OnOk, IfErr};
ghost use Rattle.stable_record.specs.declared.formats.TheConstants.{MAX_RECORD_LEN as MOST};
ghost use Rattle.slot_record.specs.declared.standing.Standing.TheVariants.{Failed as FAILED, Either as EITHER};
ghost use Rattle.slot_record.specs.Images.{DiffersWithin, IsWritten};
ghost use Rattle.slot_record.specs.Plates.{Only, LeavesOnly, Called};
ghost use Rattle.slot_record.specs.Slots.{body_of, entry_of, record_on};
ghost use Rattle.slot_record.specs.Records.{FindsAmong, IsSettled, IsTried, bodies_on};
ghost use Rattle.slot_record.specs.Keeping.{CanKeep, IsKept, IsClosed, IsWaiting, Stays, next_of};

use crate::entries::{BUFFER_LEN, ENTRY_HEAD_LEN, fill};
use crate::slots::{CLOSED, LEAST_PLATE_LEN, MAX_SEQUENCE, OPEN, Slot};
use crate::standing::{Known, Standing};
use crate::{Plate, PlateFault};

/// Writes these bytes from a place on and syncs, on a plate that is synced: two calls.
pub fn store<P: Plate>(plate: &mut P, at: u32, bytes: &[u8]) -> Result<(), PlateFault>
    requires range { at + length bytes.now ≤ (P.state plate.old).size }
    requires synced { Only (P.state plate.old).seen (P.state plate.old) }
    ensures stored { OnOk result (Only (P.state plate.new).seen (P.state plate.new)) }
    ensures written { OnOk result (IsWritten at bytes.now (P.state plate.old).seen (P.state plate.new).seen) }
    ensures moments { LeavesOnly (P.state plate.old) (P.state plate.new) (DiffersWithin at (length bytes.now) (P.state plate.old).seen) }
    ensures called { Called (P.state plate.old) (P.state plate.new) result }
{
    plate.write_at(at, bytes)?;
    plate.sync()
}

/// Closes the other slot's gate where it is open: two calls, or none.
fn close_other<P: Plate>(plate: &mut P, known: Known) -> Result<(), PlateFault>
    requires room { LEAST_PLATE_LEN ≤ (P.state plate.old).size }
    requires settled { IsSettled (P.state plate.old) known }
    ensures closed { OnOk result (IsClosed (P.state plate.new) known.own known.sequence) }
    ensures stays { Stays FAILED known.own (P.state plate.old) (P.state plate.new) }
    ensures called { Called (P.state plate.old) (P.state plate.new) result }
{
    if !known.other_open {
        return Ok(());
    }
    store(plate, known.own.other().start(), &[CLOSED])
}

/// Writes the next record behind the other slot's gate, which is closed: two calls.
fn write_other<P: Plate>(
    plate: &mut P,
    known: Known,
    entry: &[u8],
    bytes: &[u8],
) -> Result<(), PlateFault>
    requires room { LEAST_PLATE_LEN ≤ (P.state plate.old).size }
    requires closed { IsClosed (P.state plate.old) known.own known.sequence }
    requires next { known.sequence < MAX_SEQUENCE }
    requires fits { length bytes.now ≤ MOST }
    requires entry { entry.now ≡ entry_of (known.sequence + 1) bytes.now }
    ensures waiting { OnOk result (IsWaiting (P.state plate.new) known.own known.sequence bytes.now) }
    ensures stays { Stays FAILED known.own (P.state plate.old) (P.state plate.new) }
    ensures called { Called (P.state plate.old) (P.state plate.new) result }
{
    store(plate, known.own.other().start() + 1, entry)
}

/// Opens the other slot's gate, behind which the next record stands: two calls.
fn open_other<P: Plate>(plate: &mut P, known: Known, bytes: &[u8]) -> Result<(), PlateFault>
    requires room { LEAST_PLATE_LEN ≤ (P.state plate.old).size }
    requires waiting { IsWaiting (P.state plate.old) known.own known.sequence bytes.now }
    requires next { known.sequence < MAX_SEQUENCE }
    requires fits { length bytes.now ≤ MOST }
    ensures settled { OnOk result (IsSettled (P.state plate.new) (next_of known)) }
    ensures stays { Stays EITHER known.own (P.state plate.old) (P.state plate.new) }
    ensures called { Called (P.state plate.old) (P.state plate.new) result }
{
    store(plate, known.own.other().start(), &[OPEN])
}

/// Keeps these bytes as the next record: four calls, or six where the other slot's gate is open. The
/// buffer holds what is written behind the gate. An error says where the record stands.
pub(crate) fn keep_body<P: Plate>(
    plate: &mut P,
    known: Known,
    buffer: &mut [u8],
    bytes: &[u8],
) -> Result<(), Standing>
    requires can { CanKeep (P.state plate.old) known bytes.now }
    requires buffer { length buffer.old ≡ BUFFER_LEN }
    ensures kept { OnOk result (IsKept (P.state plate.new) (next_of known) bytes.now) }
    ensures tried { IfErr result (λ standing. IsTried record_on (bodies_on standing known.own) (P.state plate.new) standing (body_of known.own (P.state plate.old).seen) bytes.now) }
    ensures moments { LeavesOnly (P.state plate.old) (P.state plate.new) (FindsAmong (body_of known.own (P.state plate.old).seen ∷ bytes.now ∷ [])) }
    ensures called { Called (P.state plate.old) (P.state plate.new) result }
{
    fill(buffer, known.sequence + 1, bytes);
    let entry = &buffer[..ENTRY_HEAD_LEN + bytes.len()];
    if close_other(plate, known).is_err() {
        return Err(Standing::Failed);
    }
    if write_other(plate, known, entry, bytes).is_err() {
        return Err(Standing::Failed);
    }
    if open_other(plate, known, bytes).is_err() {
        return Err(Standing::Either);
    }
    Ok(())
}

// Keeping a record: the next slot is written and the one after it closed, and then the next one is opened, with a
// sync behind each of the two steps.

ghost use Rattle.std.specs.Prelude.{◌<◌, ◌≤◌, [], ◌∷◌, length, OnOk, IfErr};
ghost use Rattle.stable_record.specs.declared.formats.TheConstants.{MAX_RECORD_LEN as MOST};
ghost use Rattle.slot_record.specs.declared.slots.TheConstants.{MAX_SEQUENCE as LAST};
ghost use Rattle.slot_record.specs.declared.standing.Standing.TheVariants.{Failed as FAILED, Either as EITHER};
ghost use Rattle.slot_record.specs.Plates.{LeavesOnly, Called};
ghost use Rattle.slot_record.specs.Records.{IsTried};
ghost use Rattle.rotating_record.specs.Slots.{body_of, record_on};
ghost use Rattle.rotating_record.specs.Records.{FindsAmong, IsSettled, bodies_on};
ghost use Rattle.rotating_record.specs.Keeping.{CanKeep, IsKept, IsWaiting, Stays, next_of};

use crate::heads::Head;
use crate::slots::{BODY_AT, NUMBERS_AT, ROTATING_PLATE_LEN};
use crate::standing::Known;
use slot_record::{CLOSED, OPEN, Plate, PlateFault, Standing, store};

/// Writes the next record behind the gate of the next slot, which is closed, and closes the gate of the
/// slot after that: four calls.
fn prepare<P: Plate>(plate: &mut P, known: Known, bytes: &[u8]) -> Result<(), PlateFault>
    requires { CanKeep (P.state plate.old) known bytes.now }
    ensures waiting { OnOk result (IsWaiting (P.state plate.new) known bytes.now) }
    ensures stays { Stays FAILED known.own (P.state plate.old) (P.state plate.new) }
    ensures called { Called (P.state plate.old) (P.state plate.new) result }
{
    let next = known.own.next();
    let numbers = Head::numbers(known.sequence + 1, bytes.len() as u32);
    plate.write_at(next.start() + NUMBERS_AT, &numbers)?;
    plate.write_at(next.start() + BODY_AT, bytes)?;
    plate.write_at(next.next().start(), &[CLOSED])?;
    plate.sync()
}

/// Opens the gate of the next slot, behind which the next record stands: two calls.
fn open_next<P: Plate>(plate: &mut P, known: Known, bytes: &[u8]) -> Result<(), PlateFault>
    requires room { ROTATING_PLATE_LEN ≤ (P.state plate.old).size }
    requires waiting { IsWaiting (P.state plate.old) known bytes.now }
    requires next { known.sequence < LAST }
    requires fits { length bytes.now ≤ MOST }
    ensures settled { OnOk result (IsSettled (P.state plate.new) (next_of known)) }
    ensures stays { Stays EITHER known.own (P.state plate.old) (P.state plate.new) }
    ensures called { Called (P.state plate.old) (P.state plate.new) result }
{
    store(plate, known.own.next().start(), &[OPEN])
}

/// Keeps these bytes as the next record: six calls, two of them syncs. An error says where the record
/// stands.
pub(crate) fn keep_body<P: Plate>(plate: &mut P, known: Known, bytes: &[u8]) -> Result<(), Standing>
    requires { CanKeep (P.state plate.old) known bytes.now }
    ensures kept { OnOk result (IsKept (P.state plate.new) (next_of known) bytes.now) }
    ensures tried { IfErr result (λ standing. IsTried record_on (bodies_on standing known.own) (P.state plate.new) standing (body_of known.own (P.state plate.old).seen) bytes.now) }
    ensures moments { LeavesOnly (P.state plate.old) (P.state plate.new) (FindsAmong (body_of known.own (P.state plate.old).seen ∷ bytes.now ∷ [])) }
    ensures called { Called (P.state plate.old) (P.state plate.new) result }
{
    if prepare(plate, known, bytes).is_err() {
        return Err(Standing::Failed);
    }
    if open_next(plate, known, bytes).is_err() {
        return Err(Standing::Either);
    }
    Ok(())
}

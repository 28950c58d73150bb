// Making a plate the home of a first record.

ghost use Rattle.std.specs.Prelude.{◌≡◌, ◌≤◌, length, OnOk, IfOk};
ghost use Rattle.stable_record.specs.declared.formats.TheConstants.{MAX_RECORD_LEN as MOST};
ghost use Rattle.slot_record.specs.Plates.{Called};
ghost use Rattle.rotating_record.specs.Slots.{body_of};
ghost use Rattle.rotating_record.specs.Records.{IsSettled};
ghost use Rattle.rotating_record.specs.Formatting.{IsEmpty};

use crate::heads::Head;
use crate::slots::{BODY_AT, MARK, NUMBERS_AT, ROTATING_PLATE_LEN, Slot};
use crate::standing::Known;
use slot_record::{CLOSED, OPEN, Plate, PlateFault, store};

/// Writes the mark and closes the three gates: five calls.
fn close_all<P: Plate>(plate: &mut P) -> Result<(), PlateFault>
    requires { ROTATING_PLATE_LEN ≤ (P.state plate.old).size }
    ensures empty { OnOk result (IsEmpty (P.state plate.new)) }
    ensures called { Called (P.state plate.old) (P.state plate.new) result }
{
    plate.write_at(0, &MARK.to_be_bytes())?;
    plate.write_at(Slot::First.start(), &[CLOSED])?;
    plate.write_at(Slot::Second.start(), &[CLOSED])?;
    plate.write_at(Slot::Third.start(), &[CLOSED])?;
    plate.sync()
}

/// Writes these bytes as the first record: ten calls.
pub(crate) fn lay_out<P: Plate>(plate: &mut P, bytes: &[u8]) -> Result<Known, PlateFault>
    requires room { ROTATING_PLATE_LEN ≤ (P.state plate.old).size }
    requires fits { length bytes.now ≤ MOST }
    ensures settled { IfOk result (λ known. IsSettled (P.state plate.new) known) }
    ensures first { IfOk result (λ known. known.sequence ≡ 1) }
    ensures body { IfOk result (λ known. body_of known.own (P.state plate.new).seen ≡ bytes.now) }
    ensures called { Called (P.state plate.old) (P.state plate.new) result }
{
    close_all(plate)?;
    let start = Slot::First.start();
    let numbers = Head::numbers(1, bytes.len() as u32);
    plate.write_at(start + NUMBERS_AT, &numbers)?;
    plate.write_at(start + BODY_AT, bytes)?;
    plate.sync()?;
    store(plate, start, &[OPEN])?;
    Ok(Known {
        own: Slot::First,
        sequence: 1,
    })
}

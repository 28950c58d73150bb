// Making a plate the home of a first record.

ghost use Rattle.std.specs.Prelude.{◌≡◌, ◌≤◌, length, OnOk, IfOk};
ghost use Rattle.stable_record.specs.declared.formats.TheConstants.{MAX_RECORD_LEN as MOST};
ghost use Rattle.slot_record.specs.Plates.{Called};
ghost use Rattle.slot_record.specs.Slots.{body_of};
ghost use Rattle.slot_record.specs.Records.{IsSettled};
ghost use Rattle.slot_record.specs.Formatting.{IsEmpty};

use crate::entries::{BUFFER_LEN, ENTRY_HEAD_LEN, fill};
use crate::keeping::store;
use crate::slots::{CLOSED, LEAST_PLATE_LEN, OPEN, Slot};
use crate::standing::Known;
use crate::{Plate, PlateFault};

/// Closes both gates: three calls.
fn close_both<P: Plate>(plate: &mut P) -> Result<(), PlateFault>
    requires { LEAST_PLATE_LEN ≤ (P.state plate.old).size }
    ensures empty { OnOk result (IsEmpty (P.state plate.new)) }
    ensures called { Called (P.state plate.old) (P.state plate.new) result }
{
    plate.write_at(Slot::First.start(), &[CLOSED])?;
    plate.write_at(Slot::Second.start(), &[CLOSED])?;
    plate.sync()
}

/// Writes these bytes as the first record: seven calls. The buffer holds what is written behind the
/// gate.
pub(crate) fn lay_out<P: Plate>(
    plate: &mut P,
    buffer: &mut [u8],
    bytes: &[u8],
) -> Result<Known, PlateFault>
    requires room { LEAST_PLATE_LEN ≤ (P.state plate.old).size }
    requires buffer { length buffer.old ≡ BUFFER_LEN }
    requires fits { length bytes.now ≤ MOST }
    ensures settled { IfOk result (λ known. IsSettled (P.state plate.new) known) }
    ensures first { IfOk result (λ known. known.sequence ≡ 1) }
    ensures body { IfOk result (λ known. body_of known.own (P.state plate.new).seen ≡ bytes.now) }
    ensures called { Called (P.state plate.old) (P.state plate.new) result }
{
    close_both(plate)?;
    fill(buffer, 1, bytes);
    let start = Slot::First.start();
    store(plate, start + 1, &buffer[..ENTRY_HEAD_LEN + bytes.len()])?;
    store(plate, start, &[OPEN])?;
    Ok(Known {
        own: Slot::First,
        sequence: 1,
        other_open: false,
    })
}

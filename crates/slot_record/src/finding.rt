// Finding a record: a sync, the two heads, and the body.

ghost use Rattle.std.specs.Prelude.{◌≡◌, ◌≤◌, Some, length, take, OnOk, IfOk};
ghost use Rattle.stable_record.specs.declared.formats.TheConstants.{MAX_RECORD_LEN as MOST};
ghost use Rattle.slot_record.specs.Plates.{Only, LeavesOnly, Called};
ghost use Rattle.slot_record.specs.Slots.{body_of};
ghost use Rattle.slot_record.specs.Records.{IsSettled};
ghost use Rattle.slot_record.specs.Finding.{IsSearched};

use crate::heads::{HEAD_LEN, Head};
use crate::slots::{LEAST_PLATE_LEN, OPEN, Slot};
use crate::standing::Known;
use crate::{Plate, PlateFault};

/// What the heads of the slots say.
#[derive(Clone, Copy)]
pub(crate) struct Found {
    pub(crate) known: Known,
    /// The length of the record's body.
    pub(crate) length: u32,
}

impl Found {
    ghost use Rattle.slot_record.specs.Finding.{found_in, chosen, IsLookedUp};

    fn in_slot(slot: Slot, own: Head, other: Head) -> Found
        ensures { result ≡ found_in slot own other }
    {
        Found {
            known: Known {
                own: slot,
                sequence: own.sequence,
                other_open: other.gate == OPEN,
            },
            length: own.length,
        }
    }

    /// Which slot has the record.
    fn choose(first: Head, second: Head) -> Option<Found>
        ensures { result ≡ chosen first second }
    {
        if first.rank() < second.rank() {
            return Some(Found::in_slot(Slot::Second, second, first));
        }
        if first.rank() > 0 {
            return Some(Found::in_slot(Slot::First, first, second));
        }
        None
    }

    /// Syncs, reads the heads and looks which slot has the record: three calls.
    fn look<P: Plate>(plate: &mut P) -> Result<Option<Found>, PlateFault>
        requires { LEAST_PLATE_LEN ≤ (P.state plate.old).size }
        ensures found { IfOk result (λ found. IsLookedUp (P.state plate.new) found) }
        ensures synced { OnOk result (Only (P.state plate.new).seen (P.state plate.new)) }
        ensures moments { LeavesOnly (P.state plate.old) (P.state plate.new) (P.state plate.old).may_leave }
        ensures called { Called (P.state plate.old) (P.state plate.new) result }
    {
        plate.sync()?;
        let first = Head::read(plate, Slot::First)?;
        let second = Head::read(plate, Slot::Second)?;
        Ok(Found::choose(first, second))
    }

    /// Reads the record's body: one call.
    fn read_body<P: Plate>(self, plate: &mut P, body: &mut [u8]) -> Result<(), PlateFault>
        requires room { LEAST_PLATE_LEN ≤ (P.state plate.old).size }
        requires body { length body.old ≡ MOST }
        requires found { IsLookedUp (P.state plate.old) (Some self) }
        ensures read { OnOk result (take self.length body.new ≡ body_of self.known.own (P.state plate.new).seen) }
        ensures settled { OnOk result (IsSettled (P.state plate.new) self.known) }
        ensures moments { LeavesOnly (P.state plate.old) (P.state plate.new) (P.state plate.old).may_leave }
        ensures called { Called (P.state plate.old) (P.state plate.new) result }
    {
        let length = self.length as usize;
        plate.read_at(
            self.known.own.start() + HEAD_LEN as u32,
            &mut body[..length],
        )
    }
}

/// Syncs, and finds the record and its body, if a slot counts: four calls. The body has room for the
/// longest one.
pub(crate) fn find<P: Plate>(plate: &mut P, body: &mut Vec<u8>) -> Result<Option<Known>, PlateFault>
    requires room { LEAST_PLATE_LEN ≤ (P.state plate.old).size }
    requires body { length body.old.items ≡ MOST }
    ensures found { IfOk result (λ found. IsSearched (P.state plate.new) found body.new.items) }
    ensures synced { OnOk result (Only (P.state plate.new).seen (P.state plate.new)) }
    ensures moments { LeavesOnly (P.state plate.old) (P.state plate.new) (P.state plate.old).may_leave }
    ensures called { Called (P.state plate.old) (P.state plate.new) result }
{
    let Some(found) = Found::look(plate)? else {
        return Ok(None);
    };
    found.read_body(plate, body)?;
    body.truncate(found.length as usize);
    Ok(Some(found.known))
}

// Finding a record: a sync, the mark, the three heads, and the body.

ghost use Rattle.std.specs.Prelude.{◌≡◌, ◌≤◌, Some, length, take, OnOk, IfOk};
ghost use Rattle.stable_record.specs.declared.formats.TheConstants.{MAX_RECORD_LEN as MOST};
ghost use Rattle.slot_record.specs.Plates.{Only, LeavesOnly, Called};
ghost use Rattle.rotating_record.specs.Slots.{mark_on, body_of};
ghost use Rattle.rotating_record.specs.Records.{IsSettled};
ghost use Rattle.rotating_record.specs.Finding.{IsSearched};

use crate::heads::Head;
use crate::slots::{BODY_AT, MARK, ROTATING_PLATE_LEN, Slot};
use crate::standing::Known;
use slot_record::{Plate, PlateFault};

/// What the heads of the slots say.
#[derive(Clone, Copy)]
pub(crate) struct Found {
    pub(crate) known: Known,
    /// The length of the record's body.
    pub(crate) length: u32,
}

/// Reads what the plate begins with: one call.
fn read_mark<P: Plate>(plate: &mut P) -> Result<u64, PlateFault>
    requires { ROTATING_PLATE_LEN ≤ (P.state plate.old).size }
    ensures mark { IfOk result (λ mark. mark ≡ mark_on (P.state plate.old).seen) }
    ensures seen { OnOk result ((P.state plate.new).seen ≡ (P.state plate.old).seen) }
    ensures moments { LeavesOnly (P.state plate.old) (P.state plate.new) (P.state plate.old).may_leave }
    ensures called { Called (P.state plate.old) (P.state plate.new) result }
{
    let mut mark = [0u8; 8];
    plate.read_at(0, &mut mark)?;
    Ok(u64::from_be_bytes(mark))
}

impl Found {
    ghost use Rattle.rotating_record.specs.Finding.{found_in, chosen, IsLookedUp};

    fn in_slot(slot: Slot, own: Head) -> Found
        ensures { result ≡ found_in slot own }
    {
        Found {
            known: Known {
                own: slot,
                sequence: own.sequence,
            },
            length: own.length,
        }
    }

    /// Which slot has the record.
    fn choose(mark: u64, first: Head, second: Head, third: Head) -> Option<Found>
        ensures { result ≡ chosen mark first second third }
    {
        if mark != MARK {
            return None;
        }
        if first.has_record(second) {
            return Some(Found::in_slot(Slot::First, first));
        }
        if second.has_record(third) {
            return Some(Found::in_slot(Slot::Second, second));
        }
        if third.has_record(first) {
            return Some(Found::in_slot(Slot::Third, third));
        }
        None
    }

    /// Syncs, reads the mark and the heads, and looks which slot has the record: eight calls.
    #[tactic(auto, unfolding(crate::specs::Slots::holder))]
    fn look<P: Plate>(plate: &mut P) -> Result<Option<Found>, PlateFault>
        requires { ROTATING_PLATE_LEN ≤ (P.state plate.old).size }
        ensures found { IfOk result (λ found. IsLookedUp (P.state plate.new) found) }
        ensures synced { OnOk result (Only (P.state plate.new).seen (P.state plate.new)) }
        ensures moments { LeavesOnly (P.state plate.old) (P.state plate.new) (P.state plate.old).may_leave }
        ensures called { Called (P.state plate.old) (P.state plate.new) result }
    {
        plate.sync()?;
        let mark = read_mark(plate)?;
        let first = Head::read(plate, Slot::First)?;
        let second = Head::read(plate, Slot::Second)?;
        let third = Head::read(plate, Slot::Third)?;
        Ok(Found::choose(mark, first, second, third))
    }

    /// Reads the record's body: one call.
    fn read_body<P: Plate>(self, plate: &mut P, body: &mut [u8]) -> Result<(), PlateFault>
        requires room { ROTATING_PLATE_LEN ≤ (P.state plate.old).size }
        requires body { length body.old ≡ MOST }
        requires found { IsLookedUp (P.state plate.old) (Some self) }
        ensures read { OnOk result (take self.length body.new ≡ body_of self.known.own (P.state plate.new).seen) }
        ensures settled { OnOk result (IsSettled (P.state plate.new) self.known) }
        ensures moments { LeavesOnly (P.state plate.old) (P.state plate.new) (P.state plate.old).may_leave }
        ensures called { Called (P.state plate.old) (P.state plate.new) result }
    {
        let length = self.length as usize;
        plate.read_at(self.known.own.start() + BODY_AT, &mut body[..length])
    }
}

/// Syncs, and finds the record and its body, if a slot has it: nine calls. The body has room for the
/// longest one.
pub(crate) fn find<P: Plate>(plate: &mut P, body: &mut Vec<u8>) -> Result<Option<Known>, PlateFault>
    requires room { ROTATING_PLATE_LEN ≤ (P.state plate.old).size }
    requires body { length body.old.items ≡ MOST }
    ensures found { IfOk result (λ found. IsSearched (P.state plate.new) found body.new.items) }
    ensures synced { OnOk result (Only (P.state plate.new).seen (P.state plate.new)) }
    ensures moments { LeavesOnly (P.state plate.old) (P.state plate.new) (P.state plate.old).may_leave }
    ensures called { Called (P.state plate.old) (P.state plate.new) result }
{
    let Some(found) = Found::look(plate)? else {
        return Ok(None);
    };
    found.read_body(plate, body)?;
    body.truncate(found.length as usize);
    Ok(Some(found.known))
}

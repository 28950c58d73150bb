// Plates: devices that may tear what is written between two syncs.

ghost use Rattle.std.specs.Prelude.{◌≡◌, ◌+◌, ◌≤◌, length, OnOk};
ghost use Rattle.slot_record.specs.Images.{part, IsWritten};
ghost use Rattle.slot_record.specs.Plates.{PlateState, IsPlate, Only, NothingNew, Tears, GoesOn, Called};

use crate::PlateFault;

/// A device with a fixed number of bytes, which a crash may tear.
///
/// What a plate is, is in one word that no code computes: its `state`, with what a read gives, a
/// clock, and the images that a crash may leave now or may have left since a moment. Between two
/// syncs that succeed each written range, that of a failed write too, may hold any bytes after a
/// crash; bytes outside these ranges stay. What a read gives is one of the images, and after a sync
/// that succeeds a crash leaves what a read gives. The model is our own. A call that fails raises the
/// count of failures by one, up to its greatest, and one that succeeds leaves it.
pub trait Plate: Drop {
    ghost state: { Self → PlateState };

    /// How many bytes the plate has. No call changes it.
    fn size(&self) -> u32
        ensures { result ≡ (state self.now).size };

    /// How many device calls have failed; it stops at the greatest number.
    fn failures(&self) -> u64
        ensures { result ≡ (state self.now).failures };

    /// Reads as many bytes as the buffer has, from a place on. The caller owes that they lie within
    /// the size.
    fn read_at(&mut self, at: u32, buffer: &mut [u8]) -> Result<(), PlateFault>
        requires { at + length buffer.old ≤ (state self.old).size }
        ensures read { OnOk result (buffer.new ≡ part at (length buffer.old) (state self.old).seen) }
        ensures seen { OnOk result ((state self.new).seen ≡ (state self.old).seen) }
        ensures images { NothingNew (state self.old) (state self.new) }
        ensures time { GoesOn (state self.old) (state self.new) }
        ensures called { Called (state self.old) (state self.new) result };

    /// Writes these bytes from a place on. The caller owes that they lie within the size. Until a
    /// sync succeeds a crash may leave any bytes there, also where the write failed.
    fn write_at(&mut self, at: u32, bytes: &[u8]) -> Result<(), PlateFault>
        requires { at + length bytes.now ≤ (state self.old).size }
        ensures written { OnOk result (IsWritten at bytes.now (state self.old).seen (state self.new).seen) }
        ensures images { Tears at (length bytes.now) (state self.old) (state self.new) }
        ensures time { GoesOn (state self.old) (state self.new) }
        ensures called { Called (state self.old) (state self.new) result };

    /// Makes sure of all that was written: from now on a crash leaves what a read gives.
    fn sync(&mut self) -> Result<(), PlateFault>
        ensures synced { OnOk result (Only (state self.old).seen (state self.new)) }
        ensures images { NothingNew (state self.old) (state self.new) }
        ensures time { GoesOn (state self.old) (state self.new) }
        ensures called { Called (state self.old) (state self.new) result };

    ghost sound: { (plate : Self) → IsPlate (state plate) };
}

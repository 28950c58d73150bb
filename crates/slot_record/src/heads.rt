// The heads of slots.

ghost use Rattle.std.specs.Prelude.{◌≡◌, ◌≤◌, slice_index, OnOk, IfOk};
ghost use Rattle.std.specs.Int.{w32, w64, from_be_bytes};
ghost use Rattle.slot_record.specs.Images.{part};
ghost use Rattle.slot_record.specs.Plates.{LeavesOnly, Called};

use crate::slots::{LEAST_PLATE_LEN, MAX_SEQUENCE, OPEN, Slot};
use crate::{Plate, PlateFault};
use stable_record::MAX_RECORD_LEN;

/// The bytes of a head: the gate, the sequence and the length.
pub(crate) const HEAD_LEN: usize = 13;

/// What a slot begins with.
#[derive(Clone, Copy)]
pub(crate) struct Head {
    pub(crate) gate: u8,
    pub(crate) sequence: u64,
    pub(crate) length: u32,
}

impl Head {
    ghost use Rattle.slot_record.specs.Slots.{rank, head_on};

    fn of(bytes: [u8; HEAD_LEN]) -> Head
        ensures gate { result.gate ≡ slice_index bytes 0 }
        ensures sequence { result.sequence ≡ from_be_bytes w64 (part 1 8 bytes) }
        ensures length { result.length ≡ from_be_bytes w32 (part 9 4 bytes) }
    {
        let [gate, a, b, c, d, e, f, g, h, i, j, k, l] = bytes;
        Head {
            gate,
            sequence: u64::from_be_bytes([a, b, c, d, e, f, g, h]),
            length: u32::from_be_bytes([i, j, k, l]),
        }
    }

    /// Reads a slot's head: one call.
    pub(crate) fn read<P: Plate>(plate: &mut P, slot: Slot) -> Result<Head, PlateFault>
        requires { LEAST_PLATE_LEN ≤ (P.state plate.old).size }
        ensures head { IfOk result (λ head. head ≡ head_on slot (P.state plate.old).seen) }
        ensures seen { OnOk result ((P.state plate.new).seen ≡ (P.state plate.old).seen) }
        ensures moments { LeavesOnly (P.state plate.old) (P.state plate.new) (P.state plate.old).may_leave }
        ensures called { Called (P.state plate.old) (P.state plate.new) result }
    {
        let mut bytes = [0u8; HEAD_LEN];
        plate.read_at(slot.start(), &mut bytes)?;
        Ok(Head::of(bytes))
    }

    /// The sequence where the slot counts, else 0.
    #[tactic(auto, unfolding(crate::specs::Slots::rank))]
    pub(crate) fn rank(self) -> u64
        ensures { result ≡ rank self }
    {
        let counts = self.gate == OPEN
            && self.sequence >= 1
            && self.sequence <= MAX_SEQUENCE
            && self.length as usize <= MAX_RECORD_LEN;
        if counts { self.sequence } else { 0 }
    }
}

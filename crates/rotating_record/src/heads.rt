// The heads of slots.

ghost use Rattle.std.specs.Prelude.{◌≡◌, ◌≤◌, slice_index, OnOk, IfOk};
ghost use Rattle.std.specs.Int.{w32, w64, from_be_bytes};
ghost use Rattle.slot_record.specs.Images.{part};
ghost use Rattle.slot_record.specs.Plates.{LeavesOnly, Called};

use crate::slots::{NUMBERS_AT, ROTATING_PLATE_LEN, Slot};
use slot_record::{MAX_SEQUENCE, OPEN, Plate, PlateFault};
use stable_record::MAX_RECORD_LEN;

/// The bytes of a sequence and a length.
pub(crate) const NUMBERS_LEN: usize = 12;

/// What a slot begins with.
#[derive(Clone, Copy)]
pub(crate) struct Head {
    pub(crate) gate: u8,
    pub(crate) sequence: u64,
    pub(crate) length: u32,
}

impl Head {
    ghost use Rattle.rotating_record.specs.Slots.{counts, has_record, numbers_of, head_on};

    /// The numbers as they are written before a body.
    pub(crate) fn numbers(sequence: u64, length: u32) -> [u8; NUMBERS_LEN]
        ensures { result ≡ numbers_of sequence length }
    {
        let [a, b, c, d, e, f, g, h] = sequence.to_be_bytes();
        let [i, j, k, l] = length.to_be_bytes();
        [a, b, c, d, e, f, g, h, i, j, k, l]
    }

    fn of(gate: [u8; 1], numbers: [u8; NUMBERS_LEN]) -> Head
        ensures gate { result.gate ≡ slice_index gate 0 }
        ensures sequence { result.sequence ≡ from_be_bytes w64 (part 0 8 numbers) }
        ensures length { result.length ≡ from_be_bytes w32 (part 8 4 numbers) }
    {
        let [gate] = gate;
        let [a, b, c, d, e, f, g, h, i, j, k, l] = numbers;
        Head {
            gate,
            sequence: u64::from_be_bytes([a, b, c, d, e, f, g, h]),
            length: u32::from_be_bytes([i, j, k, l]),
        }
    }

    /// Reads a slot's head: two calls.
    pub(crate) fn read<P: Plate>(plate: &mut P, slot: Slot) -> Result<Head, PlateFault>
        requires { ROTATING_PLATE_LEN ≤ (P.state plate.old).size }
        ensures head { IfOk result (λ head. head ≡ head_on slot (P.state plate.old).seen) }
        ensures seen { OnOk result ((P.state plate.new).seen ≡ (P.state plate.old).seen) }
        ensures moments { LeavesOnly (P.state plate.old) (P.state plate.new) (P.state plate.old).may_leave }
        ensures called { Called (P.state plate.old) (P.state plate.new) result }
    {
        let mut gate = [0u8; 1];
        plate.read_at(slot.start(), &mut gate)?;
        let mut numbers = [0u8; NUMBERS_LEN];
        plate.read_at(slot.start() + NUMBERS_AT, &mut numbers)?;
        Ok(Head::of(gate, numbers))
    }

    /// Whether the slot counts: its gate is open, and its numbers are in their ranges.
    #[tactic(auto, unfolding(crate::specs::Slots::counts))]
    fn counts(self) -> bool
        ensures { result ≡ counts self }
    {
        self.gate == OPEN
            && self.sequence >= 1
            && self.sequence <= MAX_SEQUENCE
            && self.length as usize <= MAX_RECORD_LEN
    }

    /// Whether the slot has the record: it counts, and the gate of the next one is closed.
    pub(crate) fn has_record(self, next: Head) -> bool
        ensures { result ≡ has_record self next }
    {
        self.counts() && next.gate != OPEN
    }
}

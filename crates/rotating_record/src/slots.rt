// Where records lie on a plate.

ghost use Rattle.std.specs.Prelude.{◌≡◌};
ghost use Rattle.rotating_record.specs.Slots.{start_of, after};

/// The number that a plate with three slots begins with, in eight bytes, the highest first: `rwvote3` and
/// the end of a line.
pub const MARK: u64 = 0x7277_766f_7465_330a;

/// The least bytes of a plate that has a record in three slots: 49 blocks of 4,096.
pub const ROTATING_PLATE_LEN: u32 = 200_704;

/// How far the numbers of a slot stand behind its gate: in the next block.
pub(crate) const NUMBERS_AT: u32 = 4_096;

/// How far the body of a slot stands behind its gate.
pub(crate) const BODY_AT: u32 = 4_108;

/// One of the three slots of a plate.
#[derive(Clone, Copy)]
pub(crate) enum Slot {
    First,
    Second,
    Third,
}

impl Slot {
    /// Where it begins, with its gate.
    pub(crate) fn start(self) -> u32
        ensures { result ≡ start_of self }
    {
        match self {
            Slot::First => 4_096,
            Slot::Second => 69_632,
            Slot::Third => 135_168,
        }
    }

    /// The slot after it in the ring.
    pub(crate) fn next(self) -> Slot
        ensures { result ≡ after self }
    {
        match self {
            Slot::First => Slot::Second,
            Slot::Second => Slot::Third,
            Slot::Third => Slot::First,
        }
    }
}

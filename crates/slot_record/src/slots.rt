// Where records lie on a plate.

ghost use Rattle.std.specs.Prelude.{◌≡◌};
ghost use Rattle.slot_record.specs.Slots.{start_of, other_of};

/// The greatest sequence of a record.
pub const MAX_SEQUENCE: u64 = 1_000_000_000_000;

/// The bytes of a slot: its head, and room for the longest body.
pub const SLOT_LEN: u32 = 60_013;

/// The least bytes of a plate that has a record.
pub const LEAST_PLATE_LEN: u32 = 120_026;

/// The gate of a slot that is open; any other byte is a closed one.
pub const OPEN: u8 = 1;

/// The gate that is written to close a slot.
pub const CLOSED: u8 = 0;

/// One of the two slots of a plate.
#[derive(Clone, Copy)]
pub(crate) enum Slot {
    First,
    Second,
}

impl Slot {
    /// Where it begins.
    pub(crate) fn start(self) -> u32
        ensures { result ≡ start_of self }
    {
        match self {
            Slot::First => 0,
            Slot::Second => SLOT_LEN,
        }
    }

    pub(crate) fn other(self) -> Slot
        ensures { result ≡ other_of self }
    {
        match self {
            Slot::First => Slot::Second,
            Slot::Second => Slot::First,
        }
    }
}

// Records of both formats on a test's file.

use crate::media::FaultyFile;
use file_plate::FilePlate;
use rotating_record::RotatingRecord;
use slot_record::{SlotFault, SlotRecord};
use stable_record::StableRecord;
use std::alloc::Global;

pub(crate) type FaultyPlate = FilePlate<FaultyFile>;

pub(crate) type TwoSlots = SlotRecord<FaultyPlate>;

pub(crate) type ThreeSlots = RotatingRecord<FaultyPlate>;

/// A record of one format over a file whose calls may fail.
pub(crate) trait Home: StableRecord {
    /// How many bytes its file has.
    fn size() -> u32;

    /// Makes the file a new record `F`.
    fn make(alloc: Global, plate: FaultyPlate) -> Result<Self, (FaultyPlate, SlotFault)>;

    /// Opens the record on the file.
    fn find(alloc: Global, plate: FaultyPlate) -> Result<(Self, Vec<u8>), (FaultyPlate, SlotFault)>;

    /// How many calls were made of its file.
    fn calls(self) -> u32;
}

impl Home for TwoSlots {
    fn size() -> u32 {
        120_026
    }

    fn make(alloc: Global, plate: FaultyPlate) -> Result<TwoSlots, (FaultyPlate, SlotFault)> {
        SlotRecord::format(alloc, plate, b"F")
    }

    fn find(
        alloc: Global,
        plate: FaultyPlate,
    ) -> Result<(TwoSlots, Vec<u8>), (FaultyPlate, SlotFault)> {
        SlotRecord::open(alloc, plate)
    }

    fn calls(self) -> u32 {
        self.into_plate().into_medium().made()
    }
}

impl Home for ThreeSlots {
    fn size() -> u32 {
        200_704
    }

    fn make(alloc: Global, plate: FaultyPlate) -> Result<ThreeSlots, (FaultyPlate, SlotFault)> {
        RotatingRecord::format(alloc, plate, b"F")
    }

    fn find(
        alloc: Global,
        plate: FaultyPlate,
    ) -> Result<(ThreeSlots, Vec<u8>), (FaultyPlate, SlotFault)> {
        RotatingRecord::open(alloc, plate)
    }

    fn calls(self) -> u32 {
        self.into_plate().into_medium().made()
    }
}

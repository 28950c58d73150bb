//! A record that survives a crash at any moment of its keeping, on a device that may tear what is
//! written.
//!
//! A `Plate` is a device with a fixed number of bytes. Between two of its syncs that succeed every
//! range that was written, that of a failed write too, may hold any bytes after a crash. A
//! `SlotRecord` keeps its record in one of two slots of a plate, `LEAST_PLATE_LEN` bytes in all, and
//! each change in the other one: that slot's gate is closed, the body is written behind it, the gate
//! is opened, with a sync behind each step. A `MemoryPlate` is a plate for tests, whose calls fail
//! when a test wants it, and which tells what a crash would leave.
//!
//! The crate promises that whatever moment the power goes, opening finds the body that was kept last
//! or, while a keep was open or had failed, that body or the one tried; that after a keep, an opening
//! or a reopening that succeeded it finds just that body; that the first device call that fails ends
//! the work: a device fault is answered where the count of failures rose by one or stood at its
//! greatest, and nowhere else does it rise; and that a `SlotRecord` is a `StableRecord`,
//! so that what stands on records stands on plates. It promises nothing of a plate whose `format`
//! didn't succeed, of one that somebody else writes, or of a real disk: what a disk does is stated
//! once, as the clauses of `Plate`.
//!
//! A crate with another format promises the same by the definitions of `specs/Promises.antt`, and shares `Standing`,
//! `store` and the laws of `specs/`.
//!
//! The crate stands on `stable_record`, `lock_model` and `thiserror`.
#![tactic(auto)]

mod entries;
mod faults;
mod finding;
mod formatting;
mod heads;
mod keeping;
pub mod laws;
mod memory_plates;
mod plates;
mod records;
mod slots;
mod standing;

pub use faults::{PlateFault, SlotFault};
pub use keeping::store;
pub use memory_plates::MemoryPlate;
pub use plates::Plate;
pub use records::SlotRecord;
pub use slots::{CLOSED, LEAST_PLATE_LEN, MAX_SEQUENCE, OPEN, SLOT_LEN};
pub use standing::Standing;

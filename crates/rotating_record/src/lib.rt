//! A record that survives a crash at any moment of its keeping, in three slots of a plate and with two
//! syncs for a keep.
//!
//! The slots form a ring. The record is in the slot whose gate is open and after which a closed one
//! follows. A keep writes the next record behind the closed gate of that one and closes the gate of the
//! third, and syncs; then it opens the gate of the new record, and syncs. `slot_record` has two slots and
//! closes the old one in a step of its own, with a sync of its own.
//!
//! The crate promises what `slot_record` promises of its records, over the same `Plate`: whatever moment
//! the power goes, opening finds the body that was kept last or, while a keep was open or had failed, that
//! body or the one tried; after a keep, an opening or a reopening that succeeded it finds just that body;
//! the first device call that fails ends the work. A `RotatingRecord` is a `StableRecord`. It promises
//! nothing of a plate whose `format` didn't succeed, of one that somebody else writes, or of a real disk.
//!
//! A plate begins with `MARK`, which tells it from one of two slots. The mark, each gate and each body
//! begin a block of 4,096 bytes of their own, so a disk that tears a whole block harms no other.
//!
//! The crate stands on `slot_record`, `stable_record` and `lock_model`.
#![tactic(auto)]

mod finding;
mod formatting;
mod heads;
mod keeping;
pub mod laws;
mod records;
mod slots;
mod standing;

pub use records::RotatingRecord;
pub use slots::{MARK, ROTATING_PLATE_LEN};

//! A plate over a file, which keeps an image of the file and holds the file to it.
//!
//! No contract can say what a file holds. So a `FilePlate` keeps in memory the bytes that the file is to
//! hold, and its contract speaks of these. A write goes to the file first and then into the image. What a
//! read returns is compared with the image, and a difference is a failure, counted like any other. The
//! first failure is the last call that reaches the file: a sync that failed may have lost what it was
//! asked to make sure of, and a later one may succeed all the same.
//!
//! The crate promises that a `FilePlate` is a `Plate` of `slot_record`, by the calls that its `Medium`
//! was asked: a call is answered with success only if the medium did it, and after a failure the medium is
//! asked nothing more. Opening settles the file, and then reads it whole. It can't promise that a file
//! does what it is asked. The premise is: if no failure was counted, the file holds the image, and a crash
//! leaves of it what `slot_record::Plate` allows. A file that another program writes breaks it, and so
//! does a disk that reports a sync that it hasn't made. `DiskFile` is the medium that a program uses; its
//! methods make one call of the operating system each and note it, and have to be read. A medium of your own keeps a
//! `CallList` of `event_lists` and notes its calls by `note_settling`, `note_reading`, `note_writing` and `note_syncing`.
//!
//! `hold` opens the file of a record with an exclusive lock. `take_lock` and `is_there` are for a caller that makes
//! a new file.
//!
//! The crate stands on `slot_record`, `stable_record`, `event_lists` and `thiserror`.
#![tactic(auto)]

mod disk_files;
mod faults;
mod file_plates;
mod media;
mod noting;

pub use disk_files::{DiskFile, hold, is_there, take_lock};
pub use faults::FileFault;
pub use file_plates::FilePlate;
pub use media::Medium;
pub use noting::{note_reading, note_settling, note_syncing, note_writing};

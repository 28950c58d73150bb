//! What the file of a record holds, in words, without opening it as a record.
//!
//! `view` takes the bytes of a file. It finds what opening would find, in two slots or in three, and what
//! each slot begins with. A `RecordView` has the body that was found, and prints as lines. `look_at` reads a
//! file by its name. Its report has these lines and says if the file would open as a record. The crate
//! writes nothing and takes no lock. If a process has the file open, its bytes may be those of a keep that
//! is not done yet.
//!
//! The crate promises that the body that it finds is the one that opening finds, and what the lines say of
//! the slots and of the body. It can't promise which bytes a file has: they are those that the operating
//! system gave.
//!
//! The crate uses `file_plate`, `rotating_record`, `slot_record`, `stable_record` and `lock_model`.
#![tactic(auto)]

mod contents;
mod files;
mod finding;
mod reports;
mod slots;
mod views;

pub use files::SeenFile;
pub use reports::{Report, Verdict, look_at};
pub use views::{RecordView, view};

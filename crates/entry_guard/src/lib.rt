//! Guards over doors: what is entered by a guard is left when the guard goes.
//!
//! A `Door` is what can be entered and left; a `ClientCore` is one. `EntryGuard` enters a borrowed
//! door, `OwnedEntry` one of its own, and each leaves when it is dropped, on every path out of its
//! scope. Either can be softened while its ticket is a writer's: the door is still inside then, as a
//! reader's.
//!
//! The crate promises that a guard is made exactly where the door may enter, and that the door is
//! outside after the guard was dropped. A client core is then idle after the same attempt, and has
//! the release of that attempt to say to each node of its ballots. `enter_and_leave` shows the same of a
//! core in a box: it takes memory for the box, and no other call does. No call waits. A guard that is
//! forgotten (`std::mem::forget`) leaves its door inside.
//!
//! What a door is, is in the ghost members of `Door`; for a client core these are the words of
//! `client_core`, and `specs/Doors` says what softening and leaving make of it. The crate stands on
//! `client_core` and `lock_messages`.
#![tactic(auto)]

mod boxed;
mod doors;
mod guards;
mod owned;

pub use boxed::{Seen, enter_and_leave};
pub use doors::Door;
pub use guards::{EntryGuard, enter_client};
pub use owned::OwnedEntry;

//! The tie of a book and its berths: why what each actor knows of its own events can't differ from
//! the one history.
//!
//! A `BookSeat` stands for a book: the world that it was opened with, its history and the actors
//! that were given a berth. A `BerthSeat` stands for one actor's berth: the actor, the opening and
//! the beginning of the history that it has seen. Neither keeps any of this in memory: what a seat
//! knows exists in proofs alone, and a rule over what all seats of one table know makes it true. In
//! each call a berth's seat is joined into the book's, one step changes both, and the berth's seat
//! is split off again; so nobody can add to the one and not to the other.
//!
//! The crate promises that a berth that is handed to its book is tied to it: what it has seen begins
//! the history, and the history has of its actor just the events that are in what it has seen,
//! whatever others added between. It knows of an event only whose it is. It stands on
//! `atomic_table`, `lock_messages` and `world_model`.
#![tactic(auto)]

mod rule;
mod seats;
mod views;

pub use rule::OpenedWith;
pub use seats::{BerthSeat, BookSeat};
pub use views::{BerthView, BookView};

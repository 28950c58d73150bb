//! Lists of events that only proofs read, for what is done to something that no contract can describe.
//!
//! A file or another program keeps no record of the calls that were made of it. An `EventList` or a
//! `CallList` is such a record: the code says what it has done, and clauses read the list. It takes no
//! memory, and its calls do nothing when the program runs.
//!
//! The crate promises that a list has just the events that were added, in their order. It can't promise
//! that what the code says of itself is true: nothing ties a list to what happened. So keep the few
//! functions that add to a list short, and read them. A list restricts only code that reads it through a
//! ghost member of a trait, as a plate over a file reads the calls of the file.
//!
//! The crate stands on `bytes`, for steps of its proofs.
#![tactic(auto)]

mod call_lists;
mod lists;

pub use call_lists::CallList;
pub use lists::EventList;

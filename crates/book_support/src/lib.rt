//! What two or more test crates share that log in a book, each helper once: new books and their berths, what faults
//! of books are to a test, and the journal of a book with its audit. A library for the test crates, and for them
//! alone.
//!
//! A helper that can fail returns a `Failure`, so that a test goes on by `?`. The crate promises what a test's own
//! proof needs: over which world a book is new, whose a berth is, and that the own log of its actor is empty. It
//! tests nothing itself.
//!
//! It stands on `test_support`, `history_book` and, for own logs, `book_recorders`; and on `journal_audit`.
#![tactic(auto)]

mod audits;
mod books;
mod faults;

pub use audits::journal_of;
pub use books::{berth_of, book_over, new_berth};
pub use faults::of_book;

// What faults are to a test that expected none.

use history_book::BookFault;
use test_outcomes::Failure;

/// What a fault of a book is to a test that expected none.
pub fn of_book(fault: BookFault) -> Failure {
    match fault {
        BookFault::Memory => Failure::Memory,
        _ => Failure::Wrong(0),
    }
}

// The journal of a book, and what an audit finds of it.

use history_book::Book;
use journal_audit::{Verdict, audit};
use std::alloc::Global;
use test_outcomes::{Failure, Outcome};
use world_machine::World;

/// Ends the test unless an audit from the world finds the journal sound, of so many lines.
fn is_sound(alloc: Global, world: World, journal: &[u8], lines: u32) -> Outcome
    requires { Unit {0} }
{
    let mut told = Vec::new(alloc);
    match audit(alloc, world, journal, &mut told) {
        Ok(Verdict::Sound(found)) if found == lines => Ok(()),
        Ok(_) => Err(Failure::Wrong(0)),
        Err(_) => Err(Failure::Memory),
    }
}

/// The journal of a book that was opened with such a world. An audit finds it sound, of as many lines as
/// the book has events; else the test is wrong.
pub fn journal_of(alloc: Global, book: &Book, world: World) -> Result<Vec<u8>, Failure>
    requires { Unit {0} }
{
    let mut journal = Vec::new(alloc);
    let Ok(()) = book.write_journal(alloc, &mut journal) else {
        return Err(Failure::Memory);
    };
    is_sound(alloc, world, journal.as_slice(), book.events())?;
    Ok(journal)
}

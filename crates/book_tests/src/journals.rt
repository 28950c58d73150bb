// The journal of a book, and what an audit finds of it.

use crate::worlds::Start;
use crate::writers::all_fit;
use history_book::Book;
use journal_audit::{Verdict, audit};
use std::alloc::Global;
use test_outcomes::{Failure, Outcome, check};

/// What the journal of a book is to be.
#[derive(Clone, Copy)]
pub(crate) enum Journal<'a> {
    /// It is not looked at.
    Any,
    /// Sound.
    Sound,
    /// Sound, and this text.
    Text(&'a str),
    /// So many bytes long, which a writer takes that has as much room as each of these, or not.
    Fits(usize, &'a [usize]),
}

/// The journal of a book, as bytes.
fn journal_of(book: &Book, alloc: Global) -> Result<Vec<u8>, Failure> {
    let mut text = Vec::new(alloc);
    match book.write_journal(alloc, &mut text) {
        Ok(()) => Ok(text),
        Err(_) => Err(Failure::Memory),
    }
}

/// Whether an audit from the world that starts so finds the journal sound, of so many lines.
fn is_sound(alloc: Global, start: Start, journal: &[u8], lines: u32) -> Outcome
    requires { Unit {0} }
{
    match start.world(alloc) {
        Ok(world) => {
            let mut told = Vec::new(alloc);
            match audit(alloc, world, journal, &mut told) {
                Ok(verdict) => check(verdict == Verdict::Sound(lines)),
                Err(_) => Err(Failure::Memory),
            }
        }
        Err(failure) => Err(failure),
    }
}

/// Whether an audit from that world finds the journal of the book sound; and it is this text, if any.
fn is_recorded(alloc: Global, book: &Book, start: Start, text: Option<&str>) -> Outcome
    requires { Unit {0} }
{
    match journal_of(book, alloc) {
        Ok(journal) => {
            let right = match text {
                Some(text) => journal.as_slice() == text.as_bytes(),
                None => true,
            };
            check(right).and(is_sound(alloc, start, journal.as_slice(), book.events()))
        }
        Err(failure) => Err(failure),
    }
}

/// Whether the journal of the book, which is over the world that starts so, is what it is to be.
pub(crate) fn is_written(alloc: Global, book: &Book, start: Start, journal: &Journal) -> Outcome
    requires { Unit {0} }
{
    match *journal {
        Journal::Any => Ok(()),
        Journal::Sound => is_recorded(alloc, book, start, None),
        Journal::Text(text) => is_recorded(alloc, book, start, Some(text)),
        Journal::Fits(bytes, rooms) => all_fit(alloc, book, bytes, rooms),
    }
}

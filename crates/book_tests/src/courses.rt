// What a new book is led through, and the journal that it has then.

ghost use Rattle.std.specs.Prelude.{◌≡◌, ◌≢◌};

use crate::books::answers_beside_another;
use crate::journals::{Journal, is_written};
use crate::logging::opened;
use crate::meetings::meets_only_others;
use crate::random_events::logs_beside;
use crate::scripts::{Turn, play_in};
use crate::worlds::{Start, Who};
use history_book::Book;
use std::alloc::Global;
use test_outcomes::Outcome;

/// Plays two scripts, one after the other, in a new book over the world that starts so, with the berths of
/// these actors.
pub(crate) fn play(
    alloc: Global,
    start: Start,
    crew: [Who; 3],
    script: &[Turn],
    rest: &[Turn],
    journal: &Journal,
) -> Outcome {
    match opened(alloc, 7, start) {
        Ok(book) => {
            let mut book = book;
            let played = play_in(&mut book, crew, script, rest);
            played.and(is_written(alloc, &book, start, journal))
        }
        Err(failure) => Err(failure),
    }
}

/// What is tried of a book beside another one.
#[derive(Clone, Copy)]
pub(crate) enum Beside {
    /// c1 and c2 log, and c1 in the other one too.
    Answers,
    /// c1 and the c1 of the other one don't meet.
    MeetsOnlyOthers,
}

fn goes_beside(book: &mut Book, other: &mut Book, beside: Beside) -> Outcome
    requires { book.old.number ≢ other.old.number }
{
    match beside {
        Beside::Answers => answers_beside_another(book, other),
        Beside::MeetsOnlyOthers => meets_only_others(book, other),
    }
}

/// Tries a new book beside another one, each over a world that starts so.
pub(crate) fn try_beside(
    alloc: Global,
    start: Start,
    beside: Beside,
    journal: &Journal,
) -> Outcome {
    let mut book = opened(alloc, 7, start)?;
    match opened(alloc, 8, start) {
        Ok(other) => {
            let mut other = other;
            let gone = goes_beside(&mut book, &mut other, beside);
            gone.and(is_written(alloc, &book, start, journal))
        }
        Err(failure) => Err(failure),
    }
}

/// Logs the events of a generator in a new book, beside a world that starts as the book's does.
pub(crate) fn log_beside(alloc: Global, start: Start, journal: &Journal) -> Outcome {
    let mut book = opened(alloc, 7, start)?;
    match start.world(alloc) {
        Ok(world) => {
            let mut world = world;
            let logged = logs_beside(alloc, &mut book, &mut world);
            logged.and(is_written(alloc, &book, start, journal))
        }
        Err(failure) => Err(failure),
    }
}

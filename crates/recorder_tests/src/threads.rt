//! Two threads that log in one book at the same time.

ghost use Rattle.std.specs.Prelude.{◌≡◌};

use crate::worlds::{book, world};
use book_recorders::{BookName, BookRecorder, Logs, Named};
use book_support::{berth_of, journal_of};
use history_book::{Berth, Book};
use lock_messages::Actor;
use std::marker::Brand;
use std::sync::{Mutex, Wait};
use std::thread::{Threads, join};
use test_outcomes::{Failure, Outcome, check_row};
use test_support::{client, count_of, text_of};
use world_model::{Age, Event};

/// How often each actor rises and falls.
const ROUNDS: u32 = 500;

/// Lets the actor rise and fall, and answers how many of its events were logged.
fn rise_and_fall<B: BookName, K: Logs, R: Wait + Copy>(
    mut recorder: BookRecorder<'_, B, K, R>,
    actor: &Actor,
) -> u32 {
    let mut logged = 0u32;
    for _ in 0..ROUNDS {
        let up = recorder.log_event(Event::Rise(*actor, Age::Old)).is_ok();
        let down = recorder.log_event(Event::Fall(*actor)).is_ok();
        logged = logged.wrapping_add(u32::from(up) + u32::from(down));
    }
    logged
}

/// Lets two actors rise and fall, each in a thread of its own.
fn both<B: BookName + Send + Sync, K: Logs + Send, R: Threads + Wait + Copy + Send + Sync>(
    rt: R,
    book: &Mutex<Named<B, K>>,
    one: (Berth, Actor),
    two: (Berth, Actor),
) -> (u32, u32)
    requires one { one.0.table ≡ B.table }
    requires two { two.0.table ≡ B.table }
{
    let first = BookRecorder::of(rt, book, one.0);
    let second = BookRecorder::of(rt, book, two.0);
    let (one, two) = (one.1, two.1);
    join(
        &rt,
        move || rise_and_fall(first, &one),
        move || rise_and_fall(second, &two),
    )
}

/// The book behind a lock, while two actors rise and fall; and how many events of each were logged.
fn whole<B: BookName + Send + Sync, K: Logs + Send, R: Threads + Wait + Copy + Send + Sync>(
    rt: R,
    book: K,
    one: (Berth, Actor),
    two: (Berth, Actor),
) -> (K, u32, u32)
    requires book { (K.book book).table ≡ B.table }
    requires one { one.0.table ≡ B.table }
    requires two { two.0.table ≡ B.table }
{
    let lock = Mutex::new(Named::<B, K>::of(book));
    let (one, two) = both(rt, &lock, one, two);
    (lock.into_inner().into_book(), one, two)
}

// The name of the book is picked here, where its berths are at hand.
fn in_two_threads<R: Threads + Wait + Copy + Send + Sync>(
    rt: R,
    book: Book,
    one: (Berth, Actor),
    two: (Berth, Actor),
) -> (Book, u32, u32)
    requires one { one.0.table ≡ book.table }
    requires two { two.0.table ≡ book.table }
{
    whole::<Brand, Book, R>(rt, book, one, two)
}

/// Whether the journal has each event of both actors, as often as it was logged.
fn has_all(journal: &[u8]) -> Outcome {
    let journal = text_of(journal)?;
    for line in ["rise c1 old", "fall c1", "rise c2 old", "fall c2"] {
        check_row(count_of(journal, line) == ROUNDS as usize, 2)?;
    }
    Ok(())
}

#[test]
fn two_threads_log_in_one_book(rt: HostRuntime) -> Outcome {
    let mut book = book(rt.alloc())?;
    let (first, second) = (Actor::Client(client(1)?), Actor::Client(client(2)?));
    let one = berth_of(&mut book, first)?;
    let two = berth_of(&mut book, second)?;
    let (book, one, two) = in_two_threads(rt, book, (one, first), (two, second));
    if one != 2 * ROUNDS || two != 2 * ROUNDS {
        return Err(Failure::Memory);
    }
    check_row(book.events() == 4 * ROUNDS, 3)?;
    let journal = journal_of(rt.alloc(), &book, world(rt.alloc())?)?;
    has_all(journal.as_slice())
}

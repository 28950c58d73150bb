// A link that brings posts, each once others have logged lines of theirs.

ghost use Rattle.std.specs.Prelude.{◌≡◌};

use book_recorders::{BookName, BookRecorder, Logs, Named};
use book_support::of_book;
use history_book::{Berth, BookFault};
use lock_messages::Actor;
use lossy_link::{Link, LinkFault, ListLink, Parcel, Post};
use std::sync::{Mutex, Wait};
use test_outcomes::Outcome;
use test_support::event;
use world_model::{Effect, Event};

/// Four actors beside the one whose loop runs, in its book.
#[derive(Drop)]
pub(crate) struct Others<'a, B: BookName, K: Logs, R: Copy> {
    one: BookRecorder<'a, B, K, R>,
    two: BookRecorder<'a, B, K, R>,
    three: BookRecorder<'a, B, K, R>,
    four: BookRecorder<'a, B, K, R>,
}

impl<'a, B: BookName, K: Logs, R: Wait + Copy> Others<'a, B, K, R> {
    pub(crate) fn of(
        rt: R,
        lock: &'a Mutex<Named<B, K>>,
        berths: (Berth, Berth, Berth, Berth),
    ) -> Others<'a, B, K, R>
        requires one { berths.0.table ≡ B.table }
        requires two { berths.1.table ≡ B.table }
        requires three { berths.2.table ≡ B.table }
        requires four { berths.3.table ≡ B.table }
    {
        let (one, two, three, four) = berths;
        Others {
            one: BookRecorder::of(rt, lock, one),
            two: BookRecorder::of(rt, lock, two),
            three: BookRecorder::of(rt, lock, three),
            four: BookRecorder::of(rt, lock, four),
        }
    }

    /// Logs the event of the one whose it is.
    pub(crate) fn log_event(&mut self, event: &Event) -> Result<Effect, BookFault> {
        let mut done = self.one.log_event(*event);
        if done == Err(BookFault::OtherActor) {
            done = self.two.log_event(*event);
        }
        if done == Err(BookFault::OtherActor) {
            done = self.three.log_event(*event);
        }
        if done == Err(BookFault::OtherActor) {
            done = self.four.log_event(*event);
        }
        done
    }

    /// Logs the event of a line.
    fn log_line(&mut self, line: &str) -> Outcome {
        let event = event(line)?;
        match self.log_event(&event) {
            Ok(_) => Ok(()),
            Err(fault) => Err(of_book(fault)),
        }
    }

    /// Logs these steps, which stand apart by commas or line ends.
    pub(crate) fn log(&mut self, steps: &str) -> Outcome {
        for step in steps.split_terminator(['\n', ',']) {
            self.log_line(step.trim_start())?;
        }
        Ok(())
    }
}

/// A link that brings what another one does, each post once others have logged lines of theirs, and lists there
/// what is sent and told over it. It has memory for so many parcels.
#[derive(Drop)]
pub(crate) struct Scripted<'l, 'a, B: BookName, K: Logs, R: Copy> {
    others: &'l mut Others<'a, B, K, R>,
    link: &'l mut ListLink,
    lines: &'l [&'l str],
    place: usize,
    room: u32,
    /// Fails once a line could not be logged.
    pub(crate) logged: Outcome,
}

impl<'l, 'a, B: BookName, K: Logs, R: Wait + Copy> Scripted<'l, 'a, B, K, R> {
    pub(crate) fn of(
        others: &'l mut Others<'a, B, K, R>,
        link: &'l mut ListLink,
        lines: &'l [&'l str],
        room: u32,
    ) -> Scripted<'l, 'a, B, K, R> {
        Scripted {
            others,
            link,
            lines,
            place: 0,
            room,
            logged: Ok(()),
        }
    }
}

impl<'l, 'a, B: BookName, K: Logs, R: Wait + Copy> Link for Scripted<'l, 'a, B, K, R> {
    ghost use Rattle.std.specs.Prelude.{None};

    ghost coming = { λ _. None };

    ghost given = { λ _. None };

    ghost refused = { λ _. None };

    fn send(&mut self, to: Actor, parcel: Parcel) -> Result<(), LinkFault> {
        if self.room == 0 {
            return Err(LinkFault::Memory);
        }
        self.room -= 1;
        self.link.send(to, parcel)
    }

    fn tell_all(&mut self, post: Post) -> Result<(), LinkFault> {
        self.link.tell_all(post)
    }

    fn receive(&mut self) -> Result<Post, LinkFault> {
        let lines = self.lines.get(self.place).copied().unwrap_or("");
        self.place = self.place.saturating_add(1);
        if let Err(failure) = self.others.log(lines) {
            self.logged = Err(failure);
            return Err(LinkFault::Closed);
        }
        self.link.receive()
    }
}

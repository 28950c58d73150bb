// One actor's way to a book that threads share.

ghost use Rattle.std.specs.Prelude.{◌≡◌, ◌⊎◌, OnOk, IfOk, IfErr};
ghost use Rattle.world_model.specs.declared.exact.ExactWorld.{ExactWorld};
ghost use Rattle.history_book.specs.Books.{BerthValue};
ghost use Rattle.event_recorders.specs.Sharing.{HaveMet, HasSeenInside};
ghost use Rattle.book_recorders.specs.Meeting.{HasSeenOn, SeesInside};
ghost use Rattle.book_recorders.specs.Sharing.{HasLogged, MayRefuse, log_of};

use crate::{BookName, Logs, Named};
use event_recorders::{Recorder, SharedRecorder};
use history_book::{Berth, BookFault};
use lock_messages::{Message, ResourceName, Ticket};
use stable_record::StableRecord;
use std::marker::Model;
use std::sync::{Mutex, Wait};
use world_model::laws::steps_change_one_part;
use world_model::{Effect, Event};

/// An actor's recorder over a book that threads share: the lock of the book, and the actor's berth.
///
/// It takes the lock for one event at a time, and keeps no guard between two. Contracts see it as the
/// berth.
#[derive(Drop)]
pub struct BookRecorder<'a, B: BookName, K: Logs, R: Copy> {
    rt: R,
    book: &'a Mutex<Named<B, K>>,
    berth: Berth,
}

impl<'a, B: BookName, K: Logs, R: Copy> Model for BookRecorder<'a, B, K, R> {
    ghost Value = { BerthValue };

    ghost view = { λ r. r.berth };

    ghost invariant = { λ r. r.berth.table ≡ B.table };
}

impl<'a, B: BookName, K: Logs, R: Copy> BookRecorder<'a, B, K, R> {
    /// The recorder of the berth's actor. The caller owes that the berth is of the book of this name.
    pub fn of(rt: R, book: &'a Mutex<Named<B, K>>, berth: Berth) -> BookRecorder<'a, B, K, R>
        requires { berth.table ≡ B.table }
        ensures { result ≡ berth }
    {
        BookRecorder { rt, book, berth }
    }

    /// The berth, which is of the book of this name.
    pub fn into_berth(self) -> Berth
        ensures berth { result ≡ self.entry }
        ensures name { self.entry.table ≡ B.table }
    {
        self.berth
    }
}

impl<'a, B: BookName, K: Logs, R: Wait + Copy> BookRecorder<'a, B, K, R> {
    /// Logs an event of the berth's actor in the book, under its lock, for which it may wait; with the
    /// errors of `Book::log`.
    ///
    /// The berth goes on from all that it had seen, by what others logged, none of it its actor's, and then
    /// by this event, which is a step of the world there; and all of it is a run. An event is no step (811)
    /// of the world that others left, and the berth has seen then what they logged; after every other error
    /// it is as it was. The book is full (812) only where with what others logged the history is full, or the
    /// list of messages of the world that they left.
    /// A call of its own, because the checker takes no further clauses at a method of the trait, whose record is a &dyn.
    pub fn log_event(&mut self, event: Event) -> Result<Effect, BookFault>
        ensures goes_on { IfOk result (λ done. HasLogged self.old event done self.new) }
        ensures stays { IfErr result (λ fault. MayRefuse fault self.old event self.new) }
    {
        self.book.lock(&self.rt).log(&mut self.berth, event)
    }
}

impl<'a, B: BookName, K: Logs, R: Wait + Copy> Recorder for BookRecorder<'a, B, K, R> {
    ghost own_log = { λ k. log_of k };

    /// Logs an event of the berth's actor in the book, as `log_event` does.
    #[tactic(auto, using(crate::proofs::Logging::added_if, crate::proofs::Logging::recorder_if))]
    fn log(&mut self, event: Event, stable: &dyn StableRecord) -> Result<Effect, BookFault> {
        let _ = stable;
        steps_change_one_part();
        self.log_event(event)
    }

    /// Logs that the actor takes or hears the message that was sent under the event's number, as `log_event` does.
    #[tactic(auto, using(crate::proofs::Logging::added_if, crate::proofs::Logging::recorder_if))]
    fn log_reading(
        &mut self,
        event: Event,
        message: &Message,
        stable: &dyn StableRecord,
    ) -> Result<Effect, BookFault> {
        let _ = message;
        let _ = stable;
        steps_change_one_part();
        self.log_event(event)
    }
}

impl<'a, B: BookName, K: Logs, R: Wait + Copy> SharedRecorder for BookRecorder<'a, B, K, R> {
    /// Asks the book, under its lock, for which it may wait. Both berths have seen one history then.
    fn meet(&mut self, other: &mut BookRecorder<'a, B, K, R>) -> Result<bool, BookFault>
        ensures met { IfOk result (λ met. HaveMet met (log_of self.old) (log_of other.old) (log_of self.new) (log_of other.new)) }
        ensures shown { OnOk result ((now : ExactWorld) × HasSeenOn self.old self.new now × HasSeenOn other.old other.new now) }
        ensures err { IfErr result (λ f. (f ≡ BookFault.OtherBook) × (log_of self.new ≡ log_of self.old) × (log_of other.new ≡ log_of other.old)) }
        ensures unshown { IfErr result (λ f. (self.new ≡ self.old) × (other.new ≡ other.old)) }
    {
        self.book
            .lock(&self.rt)
            .meet(&mut self.berth, &mut other.berth)
    }

    /// Asks the book, under its lock, for which it may wait. The berth has seen the history then to which the
    /// answer belongs.
    fn inside(&mut self, resource: &ResourceName) -> Result<Vec<Ticket>, BookFault>
        ensures seen { IfOk result (λ tickets. HasSeenInside (log_of self.old) resource.now tickets.items (log_of self.new)) }
        ensures shown { IfOk result (λ tickets. SeesInside self.old resource.now tickets.items self.new) }
        ensures err { IfErr result (λ f. ((f ≡ BookFault.OtherBook) ⊎ (f ≡ BookFault.Memory)) × (log_of self.new ≡ log_of self.old)) }
        ensures unshown { IfErr result (λ f. (f ≡ BookFault.OtherBook → self.new ≡ self.old) × (f ≡ BookFault.Memory → (now : ExactWorld) × HasSeenOn self.old self.new now)) }
    {
        self.book.lock(&self.rt).inside(&mut self.berth, resource)
    }
}

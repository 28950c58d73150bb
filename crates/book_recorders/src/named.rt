// A book under a lock.

ghost use Rattle.std.specs.Prelude.{◌≡◌, ◌⊎◌, OnOk, IfOk, IfErr};
ghost use Rattle.berth_seats.specs.Views.{TableId};
ghost use Rattle.world_model.specs.declared.exact.ExactWorld.{ExactWorld};
ghost use Rattle.history_book.specs.Books.{BookValue};
ghost use Rattle.event_recorders.specs.Sharing.{HaveMet, HasSeenInside};
ghost use Rattle.book_recorders.specs.Meeting.{HasSeenOn, SeesInside};
ghost use Rattle.book_recorders.specs.Sharing.{HasLogged, MayRefuse, log_of, no_table};

use crate::Logs;
use history_book::{Berth, BookFault};
use lock_messages::{ResourceName, Ticket};
use std::marker::{Brand, Model, PhantomData};
use world_model::{Effect, Event};

/// Which book it is, by the table that ties its berths. The call that opens the book picks it.
pub trait BookName {
    ghost table: { TableId };
}

impl BookName for Brand {
    ghost table = { no_table };
}

/// The book of this name, as it lies under a lock. Contracts see it as the book.
///
/// Of a value under a lock nothing is known but what its type says; so the type says which book it is,
/// and a berth that says the same is its own.
#[derive(Drop)]
pub struct Named<B: BookName, K: Logs> {
    book: K,
    name: PhantomData<B>,
}

impl<B: BookName, K: Logs> Model for Named<B, K> {
    ghost Value = { BookValue };

    ghost view = { λ n. K.book n.book };

    ghost invariant = { λ n. (K.book n.book).table ≡ B.table };
}

impl<B: BookName, K: Logs> Named<B, K> {
    /// The book under its name. The caller owes that it is that book.
    pub fn of(book: K) -> Named<B, K>
        requires { (K.book book).table ≡ B.table }
        ensures { result ≡ K.book book }
    {
        Named {
            book,
            name: PhantomData,
        }
    }

    /// The book, which is the one of this name.
    pub fn into_book(self) -> K
        ensures book { K.book result ≡ self }
        ensures name { self.table ≡ B.table }
    {
        self.book
    }

    /// Logs an event of the berth's actor, with the errors of `Book::log`.
    ///
    /// What is said of the berth names no book: the berth goes on from all that it had seen, by what
    /// others logged, none of it its actor's, and then by this event, which may happen there; and all of
    /// it is a run. An event is no step (811) of the world that others left, and the berth has seen then
    /// what they logged; after every other error it is as it was. The book is full (812) only where with
    /// what others logged the history is full, or the list of messages of the world that they left. The
    /// caller owes that the berth is of the book of this name.
    #[tactic(auto, using(crate::proofs::Between::has_logged, crate::proofs::Between::may_refuse, crate::proofs::Between::logged_table, crate::proofs::Between::refused_table))]
    pub(crate) fn log(&mut self, berth: &mut Berth, event: Event) -> Result<Effect, BookFault>
        requires { berth.old.table ≡ B.table }
        ensures logged { IfOk result (λ done. HasLogged berth.old event done berth.new) }
        ensures refused { IfErr result (λ f. MayRefuse f berth.old event berth.new) }
    {
        self.book.log(berth, event)
    }

    /// Whether the berths are of two clients inside one resource; then both read. Their own logs stay as they are,
    /// and both have seen one history.
    ///
    /// The only error is that one of them has another book's number (815), which changes nothing. The caller owes
    /// that both are of the book of this name.
    #[tactic(auto, using(crate::proofs::MeetingFacts::met_if))]
    pub(crate) fn meet(&mut self, one: &mut Berth, other: &mut Berth) -> Result<bool, BookFault>
        requires one { one.old.table ≡ B.table }
        requires other { other.old.table ≡ B.table }
        ensures met { IfOk result (λ met. HaveMet met (log_of one.old) (log_of other.old) (log_of one.new) (log_of other.new)) }
        ensures shown { OnOk result ((now : ExactWorld) × HasSeenOn one.old one.new now × HasSeenOn other.old other.new now) }
        ensures tables { (one.new.table ≡ B.table) × (other.new.table ≡ B.table) }
        ensures err { IfErr result (λ f. (f ≡ BookFault.OtherBook) × (one.new ≡ one.old) × (other.new ≡ other.old)) }
    {
        self.book.meet(one, other)
    }

    /// The tickets of the clients that are inside the resource, in the order of the clients; a writer among them is
    /// the only one. The berth has seen the history then to which the answer belongs, and its own log stays as it
    /// is.
    ///
    /// The errors: the berth has another book's number (815), or memory was refused (813). The caller owes that the
    /// berth is of the book of this name.
    #[tactic(auto, using(crate::proofs::MeetingFacts::seen_if, crate::proofs::MeetingFacts::log_seen))]
    pub(crate) fn inside(
        &mut self,
        berth: &mut Berth,
        resource: &ResourceName,
    ) -> Result<Vec<Ticket>, BookFault>
        requires { berth.old.table ≡ B.table }
        ensures seen { IfOk result (λ tickets. HasSeenInside (log_of berth.old) resource.now tickets.items (log_of berth.new)) }
        ensures shown { IfOk result (λ tickets. SeesInside berth.old resource.now tickets.items berth.new) }
        ensures table { berth.new.table ≡ B.table }
        ensures err { IfErr result (λ f. ((f ≡ BookFault.OtherBook) ⊎ (f ≡ BookFault.Memory)) × (log_of berth.new ≡ log_of berth.old)) }
        ensures unshown { IfErr result (λ f. (f ≡ BookFault.OtherBook → berth.new ≡ berth.old) × (f ≡ BookFault.Memory → (now : ExactWorld) × HasSeenOn berth.old berth.new now)) }
    {
        self.book.inside(berth, resource)
    }
}

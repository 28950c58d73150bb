// A book whose opening is known.

ghost use Rattle.std.specs.Prelude.{◌≡◌};
ghost use Rattle.history_book.specs.Books.{BookValue};

use berth_seats::OpenedWith;
use book_recorders::Logs;
use history_book::{Berth, BookFault};
use lock_messages::{ResourceName, Ticket};
use std::marker::{Model, PhantomData};
use world_model::{Effect, Event};

/// A book that was opened with the world of this name. Contracts see it as the book.
///
/// Of a value under a lock nothing is known but what its type says; so the type says with which world
/// the book was opened.
#[derive(Drop)]
pub(crate) struct Opened<O: OpenedWith, K: Logs> {
    book: K,
    world: PhantomData<O>,
}

impl<O: OpenedWith, K: Logs> Model for Opened<O, K> {
    ghost Value = { BookValue };

    ghost view = { λ o. K.book o.book };

    ghost invariant = { λ o. (K.book o.book).opening ≡ O.world };
}

impl<O: OpenedWith, K: Logs> Opened<O, K> {
    /// The book under the name of its opening. The caller owes that it is that opening.
    pub(crate) fn of(book: K) -> Opened<O, K>
        requires { (K.book book).opening ≡ O.world }
        ensures { result ≡ K.book book }
    {
        Opened {
            book,
            world: PhantomData,
        }
    }

    /// The book, which was opened with the world of this name.
    pub(crate) fn into_book(self) -> K
        ensures book { K.book result ≡ self }
        ensures opening { self.opening ≡ O.world }
    {
        self.book
    }
}

impl<O: OpenedWith, K: Logs> Logs for Opened<O, K> {
    ghost book = { λ o. o };

    fn log(&mut self, berth: &mut Berth, event: Event) -> Result<Effect, BookFault> {
        self.book.log(berth, event)
    }

    fn observe(&mut self, berth: &mut Berth) -> Result<(), BookFault> {
        self.book.observe(berth)
    }

    fn meet(&mut self, one: &mut Berth, other: &mut Berth) -> Result<bool, BookFault> {
        self.book.meet(one, other)
    }

    fn inside(
        &mut self,
        berth: &mut Berth,
        resource: &ResourceName,
    ) -> Result<Vec<Ticket>, BookFault> {
        self.book.inside(berth, resource)
    }
}

// A recorder with a book of its own.

ghost use Rattle.std.specs.Prelude.{◌≡◌, ◌≢◌, true, false, IfOk, IfErr, IfSome, IfNone};
ghost use Rattle.world_machine.specs.Listing.{has_actor};
ghost use Rattle.world_model.specs.Locality.{IsAsListed};
ghost use Rattle.history_book.specs.Books.{IsLogged, IsRefused};
ghost use Rattle.book_recorders.specs.Alone.{Alone, IsAlone, IsUnloggedOf};
ghost use Rattle.book_recorders.specs.Sharing.{log_of};

use crate::Logs;
use event_recorders::Recorder;
use history_book::{Berth, Book, BookFault};
use lock_messages::{Actor, Message};
use stable_record::StableRecord;
use std::alloc::Global;
use std::marker::Model;
use world_machine::World;
use world_model::laws::steps_change_one_part;
use world_model::{Effect, Event};

/// A recorder over a book of its own, in which its actor alone logs; for tests of what an actor does.
/// There is no lock. Contracts see it as the book and the berth.
#[derive(Drop)]
pub struct OwnBookRecorder<K: Logs> {
    book: K,
    berth: Berth,
}

impl<K: Logs> Model for OwnBookRecorder<K> {
    ghost Value = { Alone };

    ghost view = { λ r. record { book = K.book r.book; berth = r.berth } };

    ghost invariant = { λ r. IsAlone (K.book r.book) r.berth };
}

/// A book of this world for one actor alone, and the actor's berth; `None` exactly where the world has no
/// such actor. The only error is want of memory (813). Nothing is handed back.
///
/// A `OwnBookRecorder` is made of the two. It is no call of its own that makes it of a world, since a type
/// with a parameter like `K` can't be named together with a `Book`.
pub fn open_alone(
    alloc: Global,
    world: World,
    actor: Actor,
) -> Result<Option<(Book, Berth)>, BookFault>
    requires { Unit {0} }
    ensures some { IfOk result (λ o. IfSome o (λ r. (has_actor world actor ≡ true) × IsUnloggedOf world actor r.0 r.1)) }
    ensures none { IfOk result (λ o. IfNone o (has_actor world actor ≡ false)) }
    ensures err { IfErr result (λ f. f ≡ BookFault.Memory) }
{
    let mut book = match Book::over(alloc, 1, world) {
        Ok(book) => book,
        Err((_world, _fault)) => return Err(BookFault::Memory),
    };
    let Ok(given) = book.berth(actor) else {
        return Err(BookFault::Memory);
    };
    let Some(berth) = given else {
        return Ok(None);
    };
    Ok(Some((book, berth)))
}

impl<K: Logs> OwnBookRecorder<K> {
    /// The recorder over a book and its berth. The caller owes that the berth is this book's, and has
    /// seen all of its history, as the two that `open_alone` gives.
    pub fn over(book: K, berth: Berth) -> OwnBookRecorder<K>
        requires { IsAlone (K.book book) berth }
        ensures { result ≡ record { book = K.book book; berth = berth } }
    {
        OwnBookRecorder { book, berth }
    }

    /// The book, in which this recorder's actor alone has logged.
    pub fn into_book(self) -> K
        ensures { K.book result ≡ self.book }
    {
        self.book
    }

    /// Logs an event of the actor in the recorder's own book, as `Book::log` does: takes it in the world, and
    /// adds it with its effect to the history. The errors are those of `Book::log` but 815, since the berth is
    /// this book's; after one the world and the history are as they were.
    pub fn log_event(&mut self, event: Event) -> Result<Effect, BookFault>
        ensures ok { IfOk result (λ done. IsLogged self.old.book self.old.berth event done self.new.book self.new.berth) }
        // What was taken or heard is the message that was sent under the number.
        ensures listed { IfOk result (λ done. IsAsListed self.old.book.world event done) }
        ensures err { IfErr result (λ f. IsRefused f self.old.book self.old.berth event self.new.book self.new.berth) }
        ensures own { IfErr result (λ f. f ≢ BookFault.OtherBook) }
    {
        self.book.log(&mut self.berth, event)
    }
}

impl<K: Logs> Recorder for OwnBookRecorder<K> {
    ghost own_log = { λ r. log_of r.berth };

    /// Logs an event of the actor in the recorder's own book, as `log_event` does.
    #[tactic(auto, using(crate::proofs::Logging::refused_alone))]
    fn log(&mut self, event: Event, stable: &dyn StableRecord) -> Result<Effect, BookFault> {
        let _ = stable;
        steps_change_one_part();
        self.log_event(event)
    }

    /// Logs that the actor takes or hears the message that was sent under the event's number, as `log_event` does.
    #[tactic(auto, using(crate::proofs::Logging::refused_alone))]
    fn log_reading(
        &mut self,
        event: Event,
        message: &Message,
        stable: &dyn StableRecord,
    ) -> Result<Effect, BookFault> {
        let _ = message;
        let _ = stable;
        steps_change_one_part();
        self.log_event(event)
    }
}

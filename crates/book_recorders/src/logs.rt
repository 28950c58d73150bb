// Who takes an actor's events.

ghost use Rattle.std.specs.Prelude.{◌≡◌, ◌≢◌, ◌⊎◌, true, OnOk, IfOk, IfErr};
ghost use Rattle.world_model.specs.Locality.{IsAsListed};
ghost use Rattle.history_book.specs.Books.{BookValue, Known, sees, IsLogged, IsRefused, IsMet, Reads, inside_ticket, own_part};
ghost use Rattle.history_book.specs.Inside.{TellsInside};

use history_book::{Berth, Book, BookFault};
use lock_messages::{ResourceName, Ticket};
use world_model::{Effect, Event};

/// A book, to who logs in it: what a recorder calls. `book` is what contracts see of it.
///
/// A type that names a book by a parameter, as what threads share has to, can't own the boxes that a
/// `Book` has; so recorders are generic over this trait, and `Book` is what it is made for.
pub trait Logs {
    ghost book: { Self → BookValue };

    /// Logs an event of the berth's actor, as `Book::log` does.
    ///
    /// The caller owes that a berth of this number is this book's own.
    fn log(&mut self, berth: &mut Berth, event: Event) -> Result<Effect, BookFault>
        requires { berth.old.number ≡ (book self.old).number → berth.old.table ≡ (book self.old).table }
        ensures ok { IfOk result (λ done. IsLogged (book self.old) berth.old event done (book self.new) berth.new) }
        // What was taken or heard is the message that was sent under the number.
        ensures listed { IfOk result (λ done. IsAsListed (book self.old).world event done) }
        ensures err { IfErr result (λ f. IsRefused f (book self.old) berth.old event (book self.new) berth.new) };

    /// Shows the berth all of the history, as `Book::observe` does.
    ///
    /// The only error is that the berth has another book's number (815), which changes nothing. The
    /// caller owes that a berth of this number is this book's own.
    fn observe(&mut self, berth: &mut Berth) -> Result<(), BookFault>
        requires { berth.old.number ≡ (book self.old).number → berth.old.table ≡ (book self.old).table }
        ensures book { book self.new ≡ book self.old }
        ensures ok { OnOk result (Known (book self.old) berth.old × (berth.new ≡ sees (book self.old) berth.old)) }
        ensures number { OnOk result (berth.old.number ≡ (book self.old).number) }
        ensures other { IfErr result (λ f. (f ≡ BookFault.OtherBook) × (berth.old.number ≢ (book self.old).number) × (berth.new ≡ berth.old)) };

    /// Whether the berths are of two clients inside one resource, as `Book::meet` tells; then both read. It shows
    /// both all of the history.
    ///
    /// The only error is that one of them has another book's number (815), which changes nothing. The caller owes
    /// of each that a berth of this number is this book's own.
    fn meet(&mut self, one: &mut Berth, other: &mut Berth) -> Result<bool, BookFault>
        requires one { one.old.number ≡ (book self.old).number → one.old.table ≡ (book self.old).table }
        requires other { other.old.number ≡ (book self.old).number → other.old.table ≡ (book self.old).table }
        ensures book { book self.new ≡ book self.old }
        ensures ok { IfOk result (λ met. IsMet met (book self.old) one.old other.old one.new other.new) }
        ensures numbers { OnOk result ((one.old.number ≡ (book self.old).number) × (other.old.number ≡ (book self.old).number)) }
        ensures read { IfOk result (λ met. met ≡ true → Reads (inside_ticket (own_part one.old)) × Reads (inside_ticket (own_part other.old))) }
        ensures err { IfErr result (λ f. (f ≡ BookFault.OtherBook) × ((one.old.number ≢ (book self.old).number) ⊎ (other.old.number ≢ (book self.old).number)) × (one.new ≡ one.old) × (other.new ≡ other.old)) };

    /// The tickets of the clients that the book's world has inside the resource, in the order of the clients, as
    /// `Book::inside` tells them; a writer among them is the only one. It shows the berth all of the history.
    ///
    /// The errors: the berth has another book's number (815), or memory was refused (813). The caller owes that a
    /// berth of this number is this book's own.
    fn inside(
        &mut self,
        berth: &mut Berth,
        resource: &ResourceName,
    ) -> Result<Vec<Ticket>, BookFault>
        requires { berth.old.number ≡ (book self.old).number → berth.old.table ≡ (book self.old).table }
        ensures book { book self.new ≡ book self.old }
        ensures ok { IfOk result (λ tickets. TellsInside (book self.old) berth.old resource.now tickets.items berth.new) }
        ensures number { OnOk result (berth.old.number ≡ (book self.old).number) }
        ensures err { IfErr result (λ f. ((f ≡ BookFault.OtherBook) × (berth.old.number ≢ (book self.old).number) × (berth.new ≡ berth.old)) ⊎ ((f ≡ BookFault.Memory) × Known (book self.old) berth.old × (berth.new ≡ sees (book self.old) berth.old))) };
}

impl Logs for Book {
    ghost book = { λ b. b };

    fn log(&mut self, berth: &mut Berth, event: Event) -> Result<Effect, BookFault> {
        Book::log(self, berth, event)
    }

    fn observe(&mut self, berth: &mut Berth) -> Result<(), BookFault> {
        Book::observe(self, berth)
    }

    fn meet(&mut self, one: &mut Berth, other: &mut Berth) -> Result<bool, BookFault> {
        Book::meet(self, one, other)
    }

    fn inside(
        &mut self,
        berth: &mut Berth,
        resource: &ResourceName,
    ) -> Result<Vec<Ticket>, BookFault> {
        Book::inside(self, berth, resource)
    }
}

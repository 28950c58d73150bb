// The book, and the berths of its actors.

ghost use Rattle.std.specs.Prelude.{◌≡◌, ◌≢◌, ◌≤◌, true, false, IfOk, IfErr, IfSome, IfNone, ◌⊎◌, OnOk, Err, length};
ghost use Rattle.world_model.specs.ExactWorlds.{step};
ghost use Rattle.world_model.specs.StepsOf.{IsRefused as IsRefusedStep};
ghost use Rattle.world_model.specs.Exclusion.{IsExclusive};
ghost use Rattle.world_model.specs.Forgetting.{forget};
ghost use Rattle.world_model.specs.Locality.{IsHistory, IsRunOf, IsAsListed};
ghost use Rattle.world_machine.specs.Listing.{has_actor};
ghost use Rattle.world_model.specs.Parts.{is_own};
ghost use Rattle.history_book.specs.Books.{BookValue, BerthValue, Known, sees, IsLogged, IsRefused, IsRefusedBy, IsSame, IsNoStep, IsOfEvent, IsBook, IsOpened, IsGiven, enters, IsMet, Reads, inside_ticket, own_part};
ghost use Rattle.history_book.specs.Inside.{TellsInside};
ghost use Rattle.berth_seats.specs.Views.{is_given};
ghost use Rattle.journal_text.specs.Journals.{history_text, IsRecorded};
ghost use Rattle.line_streams.specs.Streams.{Puts};

use crate::BookFault;
use crate::meeting::are_inside_together;
use crate::owners::{enters_by, has_given, is_of};
use berth_seats::{BerthSeat, BookSeat, OpenedWith};
use journal_text::{JournalFault, write_history};
use lock_messages::{Actor, ResourceName, Ticket};
use std::alloc::Global;
use std::io::Write;
use std::marker::{Brand, Model};
use world_machine::World;
use world_model::laws::{lists_are_the_sets, locality, steps_change_one_part};
use world_model::{Effect, Event, StepFault};

/// The most events of a book.
pub const MAX_EVENTS: usize = 4_194_304;

/// The history of a world: its events with their effects, in order. Its number is its name.
///
/// Contracts see a `BookValue`: beside the number and the history the table that ties its berths, the
/// world that it was opened with, the actors that were given a berth, and the world as it is now, which
/// the history leaves.
#[derive(Drop)]
pub struct Book {
    number: u64,
    world: World,
    history: Vec<(Event, Effect)>,
    given: Vec<Actor>,
    entered: u32,
    seat: BookSeat,
}

impl Model for Book {
    ghost Value = { BookValue };

    ghost view = { λ b. record { number = b.number; table = b.seat.table; opening = b.seat.book.opening; history = b.seat.book.history; given = b.seat.book.given; world = b.world } };

    ghost invariant = { λ b. IsBook b.history.items b.given.items b.entered b.seat.book b.world };
}

/// The token by which one actor logs. Contracts see a `BerthValue`: its book's number and table, its
/// actor, the world that the book was opened with, and the beginning of the history that it has seen.
#[derive(Drop)]
pub struct Berth {
    number: u64,
    actor: Actor,
    seat: BerthSeat,
}

impl Model for Berth {
    ghost Value = { BerthValue };

    ghost view = { λ k. record { number = k.number; table = k.seat.table; actor = k.seat.berth.actor; opening = k.seat.berth.opening; seen = k.seat.berth.seen } };

    ghost invariant = { λ k. k.seat.berth.actor ≡ k.actor };
}

impl Book {
    /// A book of this number over the world, without a history and without berths.
    ///
    /// The only error is want of memory (813), which hands the world back. One allocation.
    pub fn over(alloc: Global, number: u64, world: World) -> Result<Book, (World, BookFault)>
        requires { Unit {0} }
        ensures ok { IfOk result (λ b. IsOpened number world b) }
        ensures err { IfErr result (λ r. (r.0 ≡ world) × (r.1 ≡ BookFault.Memory)) }
    {
        Book::opened::<Brand>(alloc, number, world)
    }

    // The seat is opened with the world that `B` names, since a call can pick it from its arguments.
    fn opened<B: OpenedWith>(
        alloc: Global,
        number: u64,
        world: World,
    ) -> Result<Book, (World, BookFault)>
        requires { world ≡ B.world }
        ensures ok { IfOk result (λ b. IsOpened number world b) }
        ensures err { IfErr result (λ r. (r.0 ≡ world) × (r.1 ≡ BookFault.Memory)) }
    {
        let Ok(seat) = BookSeat::open::<B>(alloc) else {
            return Err((world, BookFault::Memory));
        };
        world.soundness();
        Ok(Book {
            number,
            world,
            history: Vec::new(alloc),
            given: Vec::new(alloc),
            entered: 0,
            seat,
        })
    }

    /// The berth of an actor; `None` exactly for an actor outside the world, and for one whose berth was
    /// given.
    ///
    /// The only error is want of memory (813), which changes nothing. It goes over the actors that were
    /// given a berth.
    pub fn berth(&mut self, actor: Actor) -> Result<Option<Berth>, BookFault>
        requires { Unit {0} }
        ensures some { IfOk result (λ o. IfSome o (λ k. (has_actor self.old.world actor ≡ true) × IsGiven actor self.old k self.new)) }
        ensures none { IfOk result (λ o. IfNone o ((self.new ≡ self.old) × ((has_actor self.old.world actor ≡ false) ⊎ (is_given self.old.given actor ≡ true)))) }
        ensures err { IfErr result (λ f. (f ≡ BookFault.Memory) × (self.new ≡ self.old)) }
    {
        let actor = &actor;
        if !self.world.has(*actor) || has_given(self.given.as_slice(), *actor) {
            return Ok(None);
        }
        if self.given.push(*actor).is_err() {
            return Err(BookFault::Memory);
        }
        let seat = self.seat.give(*actor);
        Ok(Some(Berth {
            number: self.number,
            actor: *actor,
            seat,
        }))
    }

    /// Tells what holds of every book at rest: its history is a run from the world that it was opened
    /// with, of at most `MAX_EVENTS` events, its world is what that run leaves, and a writer inside a
    /// resource is there alone. It computes nothing.
    pub fn standing(&self)
        ensures history { IsHistory self.now.opening self.now.history self.now.world }
        ensures run { IsRunOf self.now.opening self.now.history self.now.world }
        ensures few { length self.now.history ≤ MAX_EVENTS }
        ensures exclusive { IsExclusive (forget self.now.world) }
    {
        locality();
        lists_are_the_sets();
        self.world.soundness();
    }

    /// The world as the history leaves it, to be asked: who is inside a resource, who waits, what an actor has
    /// kept.
    pub fn world(&self) -> &World
        ensures { result.now ≡ self.now.world }
    {
        &self.world
    }

    /// How many events the history has. One look-up.
    pub fn events(&self) -> u32
        ensures { result ≡ length self.now.history }
    {
        self.history.len() as u32
    }

    /// How many Enters the history has. One look-up.
    pub fn entered(&self) -> u32
        ensures { result ≡ enters self.now.history }
    {
        self.entered
    }

    /// Writes the journal of the history: each event's one text and a line feed, in order. An audit from
    /// the world that the book was opened with finds it sound (`journal_laws`).
    ///
    /// The errors: `Write` (817) where the writer fails or takes nothing, `Memory` (818) where memory was
    /// refused. Then a beginning of the journal was written, and not all of it.
    #[tactic(auto, using(crate::proofs::Histories::few_ballots))]
    pub fn write_journal<W: Write>(&self, alloc: Global, writer: &mut W) -> Result<(), JournalFault>
        ensures text { Puts (W.contents writer.old) (W.contents writer.new) (history_text self.now.history) result }
        ensures recorded { OnOk result (IsRecorded self.now.opening self.now.history self.now.world) }
    {
        self.world.soundness();
        locality();
        write_history(alloc, self.history.as_slice(), writer)
    }

    /// Shows the berth all of the history.
    ///
    /// The only error is that the berth has another book's number (815), which changes nothing. The
    /// caller owes that a berth of this number is this book's own.
    /// It logs nothing, so that a program may compare what it has seen with the history.
    pub fn observe(&mut self, berth: &mut Berth) -> Result<(), BookFault>
        requires { berth.old.number ≡ self.old.number → berth.old.table ≡ self.old.table }
        ensures book { self.new ≡ self.old }
        ensures ok { OnOk result (Known self.old berth.old × (berth.new ≡ sees self.old berth.old)) }
        ensures number { OnOk result (berth.old.number ≡ self.old.number) }
        ensures other { IfErr result (λ f. (f ≡ BookFault.OtherBook) × (berth.old.number ≢ self.old.number) × (berth.new ≡ berth.old)) }
    {
        if berth.number != self.number {
            return Err(BookFault::OtherBook);
        }
        self.seat.look(&mut berth.seat);
        locality();
        Ok(())
    }

    /// Logs an event of the berth's actor: takes it in the world, and adds it with its effect to the
    /// history.
    ///
    /// The errors, in this order: the berth has another book's number (815), the event is another
    /// actor's (814), the history is full (812), its growth was refused (813); and then, by what the
    /// world's step answers, the list of messages is full (812), memory was refused (813), or the event
    /// is no step (811, with the step's fault). Nothing has changed then, but after 811 the berth has seen
    /// all of the history. The caller owes that a berth of this number is this book's own. It costs what
    /// the step costs, and now and then the history's growth.
    pub fn log(&mut self, berth: &mut Berth, event: Event) -> Result<Effect, BookFault>
        requires { berth.old.number ≡ self.old.number → berth.old.table ≡ self.old.table }
        ensures ok { IfOk result (λ done. IsLogged self.old berth.old event done self.new berth.new) }
        // What was taken or heard is the message that was sent under the number.
        ensures listed { IfOk result (λ done. IsAsListed self.old.world event done) }
        ensures err { IfErr result (λ f. IsRefused f self.old berth.old event self.new berth.new) }
        // Both are still those of one another, also where it is refused.
        ensures stays { (self.new.number ≡ self.old.number) × (self.new.table ≡ self.old.table) × (berth.new.number ≡ berth.old.number) × (berth.new.table ≡ berth.old.table) }
    {
        let event = &event;
        if berth.number != self.number {
            return Err(BookFault::OtherBook);
        }
        if !is_of(berth.actor, *event) {
            return Err(BookFault::OtherActor);
        }
        if self.history.len() >= MAX_EVENTS {
            self.tie(berth);
            // A full book is found with the berth's seat aboard, though nothing is logged: only a tied berth shows the history of
            // a book under a lock. The step changes nothing, and is taken only in the refusal.
            return Err(BookFault::Full);
        }
        if self.history.reserve(1).is_err() {
            return Err(BookFault::Memory);
        }
        let stepped = self.world.step(event);
        match stepped {
            Ok(effect) => {
                let effect = &effect;
                self.history.push_reserved((*event, *effect));
                self.entered += enters_by(event);
                self.seat.add(&mut berth.seat, *event, *effect);
                locality();
                steps_change_one_part();
                Ok(*effect)
            }
            Err(fault) => Err(self.refuse(berth, event, fault)),
        }
    }

    // Why the event was refused. Where it is no step, the berth is shown the history.
    fn refuse(&mut self, berth: &mut Berth, event: &Event, fault: StepFault) -> BookFault
        requires table { berth.old.table ≡ self.old.table }
        requires own { is_own berth.old.actor event.now ≡ true }
        requires refused { IsRefusedStep event.now (step self.old.world event.now) fault }
        ensures why { IsRefusedBy result self.old berth.old event.now self.new berth.new }
        ensures stays { (self.new.number ≡ self.old.number) × (self.new.table ≡ self.old.table) × (berth.new.number ≡ berth.old.number) × (berth.new.table ≡ berth.old.table) }
    {
        match fault {
            StepFault::SentListFull => {
                self.tie(berth);
                BookFault::Full
            }
            StepFault::Memory => BookFault::Memory,
            StepFault::UnknownActor
            | StepFault::Down
            | StepFault::Up
            | StepFault::WrongPhase
            | StepFault::NotStored
            | StepFault::NothingToSay
            | StepFault::NoSuchMessage
            | StepFault::NotAddressed
            | StepFault::NoQuorum
            | StepFault::AttemptsSpent
            | StepFault::NothingTried
            | StepFault::NoSuchPlace => {
                self.tell(berth, event, fault);
                BookFault::NotAStep(fault)
            }
        }
    }

    /// Tells what is known of the book and a berth of it: the history is a run, what the berth has seen
    /// begins it, and its actor's events in it are the berth's own. Nothing changes, and the berth needs not
    /// have seen all. The caller owes that the berth is this book's own.
    pub fn tie(&mut self, berth: &mut Berth)
        requires { berth.old.table ≡ self.old.table }
        ensures known { Known self.old berth.old }
        ensures same { IsSame self.old berth.old self.new berth.new }
    {
        self.seat.tie(&mut berth.seat);
        locality();
    }

    // Shows the berth the history where its event is none that may happen.
    #[tactic(auto, using(crate::proofs::Refusals::known, crate::proofs::Refusals::local_refusal))]
    fn tell(&mut self, berth: &mut Berth, event: &Event, fault: StepFault)
        requires table { berth.old.table ≡ self.old.table }
        requires own { is_own berth.old.actor event.now ≡ true }
        requires refused { step self.old.world event.now ≡ Err fault }
        requires of_event { IsOfEvent fault }
        ensures why { IsNoStep fault self.old berth.old event.now self.new berth.new }
        ensures stays { (self.new.number ≡ self.old.number) × (self.new.table ≡ self.old.table) × (berth.new.number ≡ berth.old.number) × (berth.new.table ≡ berth.old.table) }
    {
        self.seat.look(&mut berth.seat);
        locality();
        steps_change_one_part();
        let _ = fault;
    }

    /// Whether the berths are of two clients inside one resource; then both read. It shows both all of the
    /// history.
    ///
    /// The only error is that one of them has another book's number (815), which changes nothing. The
    /// caller owes of each that a berth of this number is this book's own.
    pub fn meet(&mut self, one: &mut Berth, other: &mut Berth) -> Result<bool, BookFault>
        requires one { one.old.number ≡ self.old.number → one.old.table ≡ self.old.table }
        requires other { other.old.number ≡ self.old.number → other.old.table ≡ self.old.table }
        ensures book { self.new ≡ self.old }
        ensures ok { IfOk result (λ met. IsMet met self.old one.old other.old one.new other.new) }
        ensures numbers { OnOk result ((one.old.number ≡ self.old.number) × (other.old.number ≡ self.old.number)) }
        ensures read { IfOk result (λ met. met ≡ true → Reads (inside_ticket (own_part one.old)) × Reads (inside_ticket (own_part other.old))) }
        ensures err { IfErr result (λ f. (f ≡ BookFault.OtherBook) × ((one.old.number ≢ self.old.number) ⊎ (other.old.number ≢ self.old.number)) × (one.new ≡ one.old) × (other.new ≡ other.old)) }
    {
        if one.number != self.number || other.number != self.number {
            return Err(BookFault::OtherBook);
        }
        self.seat.look(&mut one.seat);
        self.seat.look(&mut other.seat);
        locality();
        Ok(are_inside_together(&self.world, one.actor, other.actor))
    }

    /// The tickets of the clients that are inside the resource, in the order of the clients; a writer among them is
    /// the only one. It shows the berth all of the history.
    ///
    /// The errors: the berth has another book's number (815), which changes nothing, or memory was refused (813).
    /// The caller owes, as for `log` and `meet`, that a berth of this number is this book's own. It goes over the
    /// world's clients.
    pub fn inside(
        &mut self,
        berth: &mut Berth,
        resource: &ResourceName,
    ) -> Result<Vec<Ticket>, BookFault>
        requires { berth.old.number ≡ self.old.number → berth.old.table ≡ self.old.table }
        ensures book { self.new ≡ self.old }
        ensures ok { IfOk result (λ tickets. TellsInside self.old berth.old resource.now tickets.items berth.new) }
        ensures number { OnOk result (berth.old.number ≡ self.old.number) }
        ensures err { IfErr result (λ f. ((f ≡ BookFault.OtherBook) × (berth.old.number ≢ self.old.number) × (berth.new ≡ berth.old)) ⊎ ((f ≡ BookFault.Memory) × Known self.old berth.old × (berth.new ≡ sees self.old berth.old))) }
    {
        match self.observe(berth) {
            Ok(()) => {}
            Err(fault) => return Err(fault),
        }
        match self.world().inside(resource) {
            Ok(tickets) => Ok(tickets),
            Err(_) => Err(BookFault::Memory),
        }
    }
}

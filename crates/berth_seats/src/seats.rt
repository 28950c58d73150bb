// The seats of a book and of its berths. Neither has any bytes but the table's.

ghost use Rattle.std.specs.Prelude.{◌≡◌, true, false, [], IfOk};
ghost use Rattle.world_model.specs.Locality.{own_events};
ghost use Rattle.world_model.specs.Parts.{is_own};
ghost use Rattle.atomic_table.specs.Seated.{TableId};
ghost use Rattle.berth_seats.specs.Views.{BookState, BerthState, is_given, opened, IsBookSeat, IsBerthSeat, OnlyOfGiven};
ghost use Rattle.berth_seats.specs.Ties.{IsTied};
ghost use Rattle.berth_seats.specs.Steps.{with_event, with_given, shown, new_berth, after, ashore, landed, aboard};
ghost use mathlib.Core.Option.{none, some};
ghost use Rattle.berth_seats.specs.declared.views.Announcement.TheVariants.{Add};

use crate::rule::{Ask, Begin, Boarding, Log, OpenedWith, Tie};
use crate::views::{Announcement, View};
use atomic_table::{Seat, Shared, Table};
use lock_messages::Actor;
use std::alloc::{AllocError, Global};
use std::marker::Model;
use std::mem;
use world_model::{Effect, Event};

/// The seat of a book.
#[derive(Drop)]
pub struct BookSeat {
    table: Table<Announcement, View, (), Tie, Global>,
    seat: Seat<Announcement, View>,
}

impl Model for BookSeat {
    ghost Value = { BookState };

    ghost view = { λ s. record { table = s.table.shared.table_id; book = s.seat.me.0.book } };

    ghost invariant = { λ s. IsBookSeat s.table.shared.table_id s.seat.table_id s.seat.me × OnlyOfGiven s.seat.me.0.book };
}

/// The seat of a berth.
#[derive(Drop)]
pub struct BerthSeat {
    seat: Seat<Announcement, View>,
}

impl Model for BerthSeat {
    ghost Value = { BerthState };

    ghost view = { λ s. record { table = s.seat.table_id; berth = s.seat.me.0.berth } };

    ghost invariant = { λ s. IsBerthSeat s.seat.me };
}

impl BookSeat {
    /// The seat of a new book, which is opened with the world that the call picks. Its history is
    /// empty, and no actor was given a berth.
    /// The opening is a ghost member, because the table's key can't have it: no value of an exact world is ever made.
    pub fn open<B: OpenedWith>(alloc: Global) -> Result<BookSeat, AllocError>
        ensures { IfOk result (λ s. s.book ≡ opened B.world) }
    {
        let (table, mut seat) = Table::of_words(alloc, &[0], &())?;
        table.shared.load::<Begin<B>>(&mut seat, 0);
        Ok(BookSeat { table, seat })
    }

    /// Gives the actor a berth, which has seen all of the history. No event of it is the actor's.
    /// The caller owes that the actor was given none.
    #[tactic(auto, using(crate::proofs::Moves::cuts))]
    pub fn give(&mut self, actor: Actor) -> BerthSeat
        requires { is_given self.old.book.given actor ≡ false }
        ensures book { self.new ≡ record self.old { book = with_given actor self.old.book } }
        ensures berth { result ≡ record { table = self.old.table; berth = new_berth actor self.old.book } }
        ensures own { own_events actor self.old.book.history ≡ [] }
        ensures tied { IsTied self.new.book result.berth }
    {
        let BookSeat { table, seat } = self;
        let words = &table.shared;
        words.compare_exchange_with::<Log>(seat, 0, 0, 0, &Announcement::Give(actor));
        BerthSeat {
            seat: words.split_seat::<Boarding>(seat),
        }
    }

    /// Tells that the berth is tied to the book, and changes nothing.
    /// The caller owes that the berth is this book's.
    pub fn tie(&mut self, berth: &mut BerthSeat)
        requires { berth.old.table ≡ self.old.table }
        ensures book { self.new ≡ self.old }
        ensures berth { berth.new ≡ berth.old }
        ensures tied { IsTied self.old.book berth.old.berth }
    {
        let BookSeat { table, seat } = self;
        let words = &table.shared;
        board(words, seat, &mut berth.seat);
        compare(words, seat);
        land(words, seat, &mut berth.seat);
    }

    /// Shows the berth all of the history, and tells that it is tied to the book.
    /// The caller owes that the berth is this book's.
    pub fn look(&mut self, berth: &mut BerthSeat)
        requires { berth.old.table ≡ self.old.table }
        ensures book { self.new ≡ self.old }
        ensures berth { berth.new ≡ record berth.old { berth = shown self.old.book berth.old.berth } }
        ensures tied_before { IsTied self.old.book berth.old.berth }
        ensures tied_after { IsTied self.new.book berth.new.berth }
    {
        let BookSeat { table, seat } = self;
        let words = &table.shared;
        board(words, seat, &mut berth.seat);
        show(words, seat);
        land(words, seat, &mut berth.seat);
    }

    /// Adds an event of the berth's actor, with its effect, to the history, and shows the berth all
    /// of it. The caller owes that the berth is this book's, and that the event is its actor's.
    pub fn add(&mut self, berth: &mut BerthSeat, event: Event, effect: Effect)
        requires table { berth.old.table ≡ self.old.table }
        requires own { is_own berth.old.berth.actor event ≡ true }
        ensures book { self.new ≡ record self.old { book = with_event event effect self.old.book } }
        ensures berth { berth.new ≡ record berth.old { berth = shown self.new.book berth.old.berth } }
        ensures tied_before { IsTied self.old.book berth.old.berth }
        ensures tied_after { IsTied self.new.book berth.new.berth }
    {
        let BookSeat { table, seat } = self;
        let words = &table.shared;
        board(words, seat, &mut berth.seat);
        write(words, seat, event, effect);
        land(words, seat, &mut berth.seat);
    }
}

// Takes the berth of another seat aboard, and leaves a seat that is nobody's in its place.
#[tactic(auto, using(crate::proofs::Moves::cuts, crate::proofs::Moves::boards))]
fn board(
    words: &Shared<Announcement, View, (), Tie>,
    book: &mut Seat<Announcement, View>,
    berth: &mut Seat<Announcement, View>,
)
    requires book { IsBookSeat words.now.table_id book.old.table_id book.old.me }
    requires table { berth.old.table_id ≡ words.now.table_id }
    requires berth { IsBerthSeat berth.old.me }
    ensures table { (book.new.table_id ≡ words.now.table_id) × (berth.new.table_id ≡ words.now.table_id) }
    ensures book { book.new.me ≡ (aboard (ashore book.old.me.0) berth.old.me.0, []) }
{
    let idle = words.split_seat::<Boarding>(book);
    let other = mem::replace(berth, idle);
    words.join_seat::<Boarding>(book, other);
}

// Tells that the berth that is aboard is tied to the book.
fn compare(words: &Shared<Announcement, View, (), Tie>, book: &mut Seat<Announcement, View>)
    requires table { (book.old.table_id ≡ words.now.table_id) × (words.now.table_id.words ≡ 1) }
    requires aboard { (book.old.me.0.is_book ≡ true) × (book.old.me.0.has_berth ≡ true) }
    ensures table { book.new.table_id ≡ words.now.table_id }
    ensures same { book.new.me ≡ book.old.me }
    ensures tied { IsTied book.old.me.0.book book.old.me.0.berth }
{
    words.load::<Ask>(book, 0);
}

// Shows the berth that is aboard all of the history.
fn show(words: &Shared<Announcement, View, (), Tie>, book: &mut Seat<Announcement, View>)
    requires table { (book.old.table_id ≡ words.now.table_id) × (words.now.table_id.words ≡ 1) }
    requires aboard { (book.old.me.0.is_book ≡ true) × (book.old.me.0.has_berth ≡ true) }
    ensures table { book.new.table_id ≡ words.now.table_id }
    ensures shown { book.new.me ≡ (after none book.old.me.0, book.old.me.1) }
    ensures tied { IsTied book.old.me.0.book book.old.me.0.berth }
{
    words.load::<Log>(book, 0);
}

// Adds an event of the actor whose berth is aboard, and shows it the history.
fn write(
    words: &Shared<Announcement, View, (), Tie>,
    book: &mut Seat<Announcement, View>,
    event: Event,
    effect: Effect,
)
    requires table { (book.old.table_id ≡ words.now.table_id) × (words.now.table_id.words ≡ 1) }
    requires aboard { (book.old.me.0.is_book ≡ true) × (book.old.me.0.has_berth ≡ true) }
    requires own { is_own book.old.me.0.berth.actor event ≡ true }
    ensures table { book.new.table_id ≡ words.now.table_id }
    ensures added { book.new.me ≡ (after (some (Add event effect)) book.old.me.0, book.old.me.1) }
    ensures tied { IsTied book.old.me.0.book book.old.me.0.berth }
{
    words.compare_exchange_with::<Log>(book, 0, 0, 0, &Announcement::Add(event, effect));
}

// Sets the berth ashore, in a seat of its own.
#[tactic(auto, using(crate::proofs::Moves::cuts))]
fn land(
    words: &Shared<Announcement, View, (), Tie>,
    book: &mut Seat<Announcement, View>,
    berth: &mut Seat<Announcement, View>,
)
    requires table { (book.old.table_id ≡ words.now.table_id) × (words.now.table_id.words ≡ 1) }
    ensures table { (book.new.table_id ≡ words.now.table_id) × (berth.new.table_id ≡ words.now.table_id) }
    ensures book { book.new.me ≡ (ashore book.old.me.0, book.old.me.1) }
    ensures berth { berth.new.me ≡ (landed book.old.me.0, []) }
{
    *berth = words.split_seat::<Boarding>(book);
}

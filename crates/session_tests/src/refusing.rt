// A recorder that refuses one event.

ghost use Rattle.std.specs.Prelude.{◌≡◌};

use event_recorders::{Recorder, SharedRecorder};
use history_book::BookFault;
use lock_messages::{Message, ResourceName, Ticket};
use stable_record::StableRecord;
use world_model::{Effect, Event};

/// Why an event is refused.
#[derive(Clone, Copy)]
pub(crate) enum Refusal {
    /// 813: memory was refused.
    Memory,
    /// 812: the book is full.
    Full,
    /// 815: the berth is another book's.
    OtherBook,
}

/// A recorder that refuses the event of this number, counted from 1 on, and logs all others. With no number it
/// refuses none.
#[derive(Drop)]
pub(crate) struct Refusing<R: Recorder> {
    pub(crate) inner: R,
    pub(crate) number: u32,
    pub(crate) refusal: Refusal,
}

impl<R: Recorder> Refusing<R> {
    /// Whether the event that comes now is the one that is refused.
    fn is_refused(&mut self) -> bool
        ensures { R.own_log self.new.inner ≡ R.own_log self.old.inner }
    {
        let is_refused = self.number == 1;
        self.number = self.number.saturating_sub(1);
        is_refused
    }
}

impl<R: Recorder> Recorder for Refusing<R> {
    ghost own_log = { λ r. R.own_log r.inner };

    fn log(&mut self, event: Event, stable: &dyn StableRecord) -> Result<Effect, BookFault> {
        if !self.is_refused() {
            return self.inner.log(event, stable);
        }
        match self.refusal {
            Refusal::Memory => Err(BookFault::Memory),
            Refusal::Full => Err(BookFault::Full),
            Refusal::OtherBook => Err(BookFault::OtherBook),
        }
    }

    fn log_reading(
        &mut self,
        event: Event,
        message: &Message,
        stable: &dyn StableRecord,
    ) -> Result<Effect, BookFault> {
        if !self.is_refused() {
            return self.inner.log_reading(event, message, stable);
        }
        match self.refusal {
            Refusal::Memory => Err(BookFault::Memory),
            Refusal::Full => Err(BookFault::Full),
            Refusal::OtherBook => Err(BookFault::OtherBook),
        }
    }
}

impl<R: SharedRecorder> SharedRecorder for Refusing<R> {
    fn meet(&mut self, other: &mut Refusing<R>) -> Result<bool, BookFault> {
        self.inner.meet(&mut other.inner)
    }

    fn inside(&mut self, resource: &ResourceName) -> Result<Vec<Ticket>, BookFault> {
        self.inner.inside(resource)
    }
}

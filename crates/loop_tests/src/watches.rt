// What watches a loop: a recorder in whose book there is little room, and a gate that counts with it.

ghost use Rattle.std.specs.Prelude.{◌≡◌};

use client_core::ClientCore;
use entry_guard::EntryGuard;
use event_recorders::{Gate, Recorder};
use history_book::BookFault;
use lock_messages::{Actor, Message, Mode};
use lock_model::Heard;
use stable_record::StableRecord;
use std::alloc::Global;
use std::sync::Arc;
use std::sync::atomic::AtomicU32;
use std::sync::atomic::Ordering::SeqCst;
use test_outcomes::Failure;
use world_model::{Effect, Event};

/// What is seen of the loop of one actor: how many Trys were logged, how often a record that counts was kept, how
/// often the gate was called before a keep of the actor and of another one, how many of these calls came out of
/// turn, how often the gate was called inside, with the modes of the tickets as digits (1 for a reader's and 2 for
/// a writer's, the first call's first), and how many messages were heard that were not the hearer's.
#[derive(Drop)]
pub(crate) struct Watch {
    actor: Actor,
    tries: AtomicU32,
    keeps: AtomicU32,
    own: AtomicU32,
    others: AtomicU32,
    wrong: AtomicU32,
    inside: AtomicU32,
    modes: AtomicU32,
    not_mine: AtomicU32,
}

/// What a watch has seen.
#[derive(Clone, Copy)]
pub(crate) struct Seen {
    pub(crate) keeps: u32,
    pub(crate) own: u32,
    pub(crate) others: u32,
    pub(crate) wrong: u32,
    pub(crate) inside: u32,
    pub(crate) modes: u32,
    pub(crate) not_mine: u32,
}

impl Watch {
    pub(crate) fn shared(alloc: Global, actor: Actor) -> Result<Arc<Watch>, Failure> {
        let watch = Watch {
            actor,
            tries: AtomicU32::new(0),
            keeps: AtomicU32::new(0),
            own: AtomicU32::new(0),
            others: AtomicU32::new(0),
            wrong: AtomicU32::new(0),
            inside: AtomicU32::new(0),
            modes: AtomicU32::new(0),
            not_mine: AtomicU32::new(0),
        };
        Ok(Arc::new(alloc, watch)?)
    }

    pub(crate) fn seen(&self) -> Seen {
        Seen {
            keeps: self.keeps.load(SeqCst),
            own: self.own.load(SeqCst),
            others: self.others.load(SeqCst),
            wrong: self.wrong.load(SeqCst),
            inside: self.inside.load(SeqCst),
            modes: self.modes.load(SeqCst),
            not_mine: self.not_mine.load(SeqCst),
        }
    }

    /// Counts the keep of a record.
    pub(crate) fn keep(&self) {
        self.keeps.fetch_add(1, SeqCst);
    }

    /// Counts a message that was not the hearer's.
    fn hear(&self, heard: Heard) {
        match heard {
            Heard::NotMine => {
                self.not_mine.fetch_add(1, SeqCst);
            }
            Heard::Counted | Heard::Known | Heard::Busy | Heard::Done | Heard::Softened => {}
        }
    }
}

/// Nothing waits at this gate. Its call of a number is in turn where so many Trys are logged, and one keep fewer is
/// made.
impl Gate for Watch {
    fn before_keep(&self, actor: Actor) {
        if actor != self.actor {
            self.others.fetch_add(1, SeqCst);
            return;
        }
        let before = self.own.fetch_add(1, SeqCst);
        let is_tried = self.tries.load(SeqCst) == before.wrapping_add(1);
        if !is_tried || self.keeps.load(SeqCst) != before {
            self.wrong.fetch_add(1, SeqCst);
        }
    }

    fn while_inside<R: Recorder>(&self, recorder: &R, guard: &EntryGuard<'_, ClientCore>) {
        let _ = recorder;
        let digit = match guard.ticket().mode {
            Mode::Read => 1,
            Mode::Write => 2,
        };
        let before = self.modes.load(SeqCst);
        self.modes
            .store(before.wrapping_mul(10).wrapping_add(digit), SeqCst);
        self.inside.fetch_add(1, SeqCst);
    }
}

/// How many events there is room for, and how many of them in which something is said.
#[derive(Clone, Copy)]
pub(crate) struct Room {
    pub(crate) events: u32,
    pub(crate) says: u32,
}

/// Room for all that a test logs.
pub(crate) const ENOUGH: Room = Room {
    events: 10_000,
    says: 10_000,
};

impl Room {
    /// Takes the room of an event; whether there was some.
    fn take(&mut self, event: &Event) -> bool {
        let is_said = matches!(event, Event::SayTo(_, _) | Event::Say(_));
        if self.events == 0 || (is_said && self.says == 0) {
            return false;
        }
        self.events = self.events.saturating_sub(1);
        if is_said {
            self.says = self.says.saturating_sub(1);
        }
        true
    }
}

/// A recorder that answers 812, a full book or a full list of messages, where there is no room any more.
#[derive(Drop)]
pub(crate) struct Watched<'a, R: Recorder> {
    pub(crate) inner: R,
    pub(crate) room: Room,
    pub(crate) watch: &'a Watch,
}

impl<'a, R: Recorder> Recorder for Watched<'a, R> {
    ghost own_log = { λ w. R.own_log w.inner };

    fn log(&mut self, event: Event, stable: &dyn StableRecord) -> Result<Effect, BookFault> {
        if !self.room.take(&event) {
            return Err(BookFault::Full);
        }
        if matches!(event, Event::Try(_)) {
            self.watch.tries.fetch_add(1, SeqCst);
        }
        self.inner.log(event, stable)
    }

    fn log_reading(
        &mut self,
        event: Event,
        message: &Message,
        stable: &dyn StableRecord,
    ) -> Result<Effect, BookFault> {
        if !self.room.take(&event) {
            return Err(BookFault::Full);
        }
        let done = self.inner.log_reading(event, message, stable);
        if let Ok(Effect::Heard(_, heard)) = &done {
            self.watch.hear(*heard);
        }
        done
    }
}

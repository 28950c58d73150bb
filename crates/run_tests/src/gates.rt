// Gates: one that asks for nothing, and three at which actors wait for each other.

use client_core::ClientCore;
use entry_guard::EntryGuard;
use event_recorders::{Gate, Recorder};
use lock_messages::{Actor, Mode};
use std::rt::Clock;
use std::sync::atomic::AtomicU32;
use std::sync::atomic::Ordering::SeqCst;
use std::thread;
use std::time::Duration;

/// How often one looks whether the other has come, a millisecond apart, where it is sure to come.
pub(crate) const TURNS: u32 = 10_000;

/// A gate at which nothing waits, and inside which nothing is done.
pub(crate) struct OpenGate;

impl Gate for OpenGate {
    fn before_keep(&self, actor: Actor) {
        let _ = actor;
    }

    fn while_inside<R: Recorder>(&self, recorder: &R, guard: &EntryGuard<'_, ClientCore>) {
        let _ = recorder;
        let _ = guard;
    }
}

/// Waits until so many have come, and looks so often; whether they have.
fn have_come<C: Clock>(rt: &C, come: &AtomicU32, awaited: u32, turns: u32) -> bool {
    for _ in 0..turns {
        if come.load(SeqCst) >= awaited {
            return true;
        }
        thread::sleep(rt, Duration::from_millis(1));
    }
    false
}

/// A gate that keeps each client inside until another is inside too.
#[derive(Drop)]
pub(crate) struct InsideTogether<C: Clock + Copy> {
    rt: C,
    inside: AtomicU32,
    alone: AtomicU32,
}

impl<C: Clock + Copy> InsideTogether<C> {
    pub(crate) fn of(rt: C) -> InsideTogether<C> {
        InsideTogether {
            rt,
            inside: AtomicU32::new(0),
            alone: AtomicU32::new(0),
        }
    }

    /// How many were inside, and how many of them waited in vain.
    pub(crate) fn came(&self) -> (u32, u32) {
        (self.inside.load(SeqCst), self.alone.load(SeqCst))
    }
}

impl<C: Clock + Copy> Gate for InsideTogether<C> {
    fn before_keep(&self, actor: Actor) {
        let _ = actor;
    }

    fn while_inside<R: Recorder>(&self, recorder: &R, guard: &EntryGuard<'_, ClientCore>) {
        let _ = recorder;
        let _ = guard;
        self.inside.fetch_add(1, SeqCst);
        if !have_come(&self.rt, &self.inside, 2, TURNS) {
            self.alone.fetch_add(1, SeqCst);
        }
    }
}

/// A gate that halts n1 before its second keep and n2 before its first until the other has come there.
#[derive(Drop)]
pub(crate) struct KeepTogether<C: Clock + Copy> {
    rt: C,
    first: AtomicU32,
    second: AtomicU32,
    alone: AtomicU32,
}

impl<C: Clock + Copy> KeepTogether<C> {
    pub(crate) fn of(rt: C) -> KeepTogether<C> {
        KeepTogether {
            rt,
            first: AtomicU32::new(0),
            second: AtomicU32::new(0),
            alone: AtomicU32::new(0),
        }
    }

    /// Whether n1 came to its second keep and n2 to its first, and how many waited there in vain.
    pub(crate) fn came(&self) -> (bool, u32) {
        let both = self.first.load(SeqCst) >= 2 && self.second.load(SeqCst) >= 1;
        (both, self.alone.load(SeqCst))
    }

    /// Counts the keep, and waits before the one that has so many before it until the other node's keep of
    /// the awaited number has begun.
    fn meet(&self, own: &AtomicU32, before: u32, other: &AtomicU32, awaited: u32) {
        if own.fetch_add(1, SeqCst) != before {
            return;
        }
        if !have_come(&self.rt, other, awaited, TURNS) {
            self.alone.fetch_add(1, SeqCst);
        }
    }
}

impl<C: Clock + Copy> Gate for KeepTogether<C> {
    fn before_keep(&self, actor: Actor) {
        if let Actor::Node(node) = actor {
            match node.get() {
                1 => self.meet(&self.first, 1, &self.second, 1),
                2 => self.meet(&self.second, 0, &self.first, 2),
                _ => {}
            }
        }
    }

    fn while_inside<R: Recorder>(&self, recorder: &R, guard: &EntryGuard<'_, ClientCore>) {
        let _ = recorder;
        let _ = guard;
    }
}

/// A gate at which c2 makes no attempt before c1 is inside as a writer, and that keeps c1, once it is inside as
/// a reader, until c2 is inside too; for that it looks so often.
#[derive(Drop)]
pub(crate) struct SoftensTogether<C: Clock + Copy> {
    rt: C,
    turns: u32,
    writing: AtomicU32,
    softened: AtomicU32,
    reading: AtomicU32,
    alone: AtomicU32,
}

impl<C: Clock + Copy> SoftensTogether<C> {
    pub(crate) fn of(rt: C, turns: u32) -> SoftensTogether<C> {
        SoftensTogether {
            rt,
            turns,
            writing: AtomicU32::new(0),
            softened: AtomicU32::new(0),
            reading: AtomicU32::new(0),
            alone: AtomicU32::new(0),
        }
    }

    /// How often c1 was inside as a writer, as a reader, and c2; and how often c1 waited in vain.
    pub(crate) fn came(&self) -> (u32, u32, u32, u32) {
        (
            self.writing.load(SeqCst),
            self.softened.load(SeqCst),
            self.reading.load(SeqCst),
            self.alone.load(SeqCst),
        )
    }

    /// c1 is inside with a ticket of this mode.
    fn keep_first(&self, mode: Mode) {
        match mode {
            Mode::Write => {
                self.writing.fetch_add(1, SeqCst);
            }
            Mode::Read => {
                self.softened.fetch_add(1, SeqCst);
                if !have_come(&self.rt, &self.reading, 1, self.turns) {
                    self.alone.fetch_add(1, SeqCst);
                }
            }
        }
    }
}

impl<C: Clock + Copy> Gate for SoftensTogether<C> {
    fn before_keep(&self, actor: Actor) {
        if let Actor::Client(client) = actor {
            if client.get() == 2 {
                have_come(&self.rt, &self.writing, 1, TURNS);
            }
        }
    }

    fn while_inside<R: Recorder>(&self, recorder: &R, guard: &EntryGuard<'_, ClientCore>) {
        let _ = recorder;
        let ticket = guard.ticket();
        if ticket.client.get() == 1 {
            self.keep_first(ticket.mode);
        } else {
            self.reading.fetch_add(1, SeqCst);
        }
    }
}

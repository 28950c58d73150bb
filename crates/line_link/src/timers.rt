// Which nodes a client waits for, and since when.

use crate::limits::micros;
use crate::pauses::Pauses;
use lock_messages::{MAX_NODES, NodeId};
use lossy_link::Post;
use std::time::Clock;

/// What a link does while nothing comes.
#[derive(Drop)]
pub(crate) enum Idle {
    /// It brings this.
    Bring(Post),
    /// It puts the last line to this node again.
    Again(NodeId),
    /// It sleeps.
    Sleep,
}

/// How a client's link stands with a node.
#[derive(Clone, Copy, Debug, PartialEq, Eq)]
enum Standing {
    /// Nothing was sent to it.
    Unasked,
    /// It has answered.
    Heard,
    /// It has not answered yet.
    Awaited,
    /// It was silent for too long.
    Silent,
}

/// The earlier of two times, if the first is known.
fn earlier(first: Option<u64>, second: u64) -> Option<u64> {
    match first {
        Some(first) => Some(first.min(second)),
        None => Some(second),
    }
}

/// What a link knows of its wait for a node, in microseconds of the clock.
#[derive(Clone, Copy, Debug, PartialEq, Eq)]
struct Timer {
    standing: Standing,
    // When the line was put first, and last.
    first: u64,
    last: u64,
    // How long after that it is put again.
    gap: u64,
    // How long the node takes to answer: the least time of late, as far as that is known.
    usual: u64,
}

impl Timer {
    /// A line is put for the first time.
    fn begin(&mut self, now: u64, pauses: &Pauses) {
        self.standing = Standing::Awaited;
        self.first = now;
        self.last = now;
        self.gap = u64::from(pauses.again);
    }

    /// A frame of the node has come. Only if its line was put once this tells how long the node takes.
    fn end(&mut self, now: u64) {
        if self.standing == Standing::Awaited && self.last == self.first {
            let took = now.saturating_sub(self.first);
            let longer = took.saturating_sub(self.usual) / 8;
            self.usual = self.usual.saturating_add(longer).min(took);
        }
        self.standing = Standing::Heard;
    }

    /// How long it is until the node may answer soon: until three quarters of its usual time are over.
    fn early(&self, now: u64) -> u64 {
        let soon = (self.usual / 4).saturating_mul(3);
        self.first.saturating_add(soon).saturating_sub(now)
    }

    /// How long ago the line was put last.
    fn since_last(&self, now: u64) -> u64 {
        now.saturating_sub(self.last)
    }

    /// Whether the node has been silent for too long, also since the line was put last.
    fn is_silent(&self, now: u64, pauses: &Pauses) -> bool {
        now.saturating_sub(self.first) >= u64::from(pauses.silence)
            && self.since_last(now) >= u64::from(pauses.again)
    }

    /// How long it is until something is to be done about an awaited node.
    fn left(&self, now: u64, pauses: &Pauses) -> u64 {
        let again = self.last.saturating_add(self.gap);
        let silent = self
            .first
            .saturating_add(u64::from(pauses.silence))
            .max(self.last.saturating_add(u64::from(pauses.again)));
        again.min(silent).saturating_sub(now)
    }

    /// What is to be done about an awaited node now.
    fn due(&mut self, node: NodeId, now: u64, pauses: &Pauses) -> Option<Idle> {
        if self.since_last(now) >= self.gap {
            self.last = now;
            self.gap = self.gap.saturating_mul(2).min(u64::from(pauses.repeat));
            return Some(Idle::Again(node));
        }
        if self.is_silent(now, pauses) {
            self.standing = Standing::Silent;
            return Some(Idle::Bring(Post::Gone(node)));
        }
        None
    }
}

/// Which nodes a client waits for, and since when.
#[derive(Drop)]
pub(crate) struct Timers {
    // Those that it was made with, and the same with the patience of now.
    plain: Pauses,
    pauses: Pauses,
    timers: [Timer; MAX_NODES as usize],
    // What the clock read last.
    now: u64,
    // The node that was nudged last, or 0.
    nudged: u8,
}

impl Timers {
    /// Nothing was sent yet.
    pub(crate) fn new(pauses: Pauses) -> Timers {
        let unasked = Timer {
            standing: Standing::Unasked,
            first: 0,
            last: 0,
            gap: 0,
            usual: 0,
        };
        Timers {
            plain: pauses,
            pauses,
            timers: [unasked; MAX_NODES as usize],
            now: 0,
            nudged: 0,
        }
    }

    /// A wait begins, in which each time is so many times as long as usual. Returns these times.
    pub(crate) fn begin(&mut self, times: u32) -> Pauses {
        self.pauses = self.plain.patient(times);
        self.pauses
    }

    fn timer(&mut self, node: NodeId) -> &mut Timer {
        &mut self.timers[usize::from(node.get()) - 1]
    }

    /// Reads the clock. If it can't be read no time has passed.
    fn read_clock<R: Clock>(&mut self, rt: &R) {
        if let Some(now) = micros(rt) {
            self.now = now;
        }
    }

    /// Something is sent to a node, which is awaited from now on.
    pub(crate) fn sent<R: Clock>(&mut self, rt: &R, node: NodeId) {
        self.read_clock(rt);
        let (now, pauses) = (self.now, self.pauses);
        self.timer(node).begin(now, &pauses);
    }

    /// A frame of a node has come.
    pub(crate) fn heard<R: Clock>(&mut self, rt: &R, node: NodeId) {
        self.read_clock(rt);
        let now = self.now;
        self.timer(node).end(now);
    }

    /// How long it is until one of the awaited nodes may answer soon, in microseconds, as the clock was read last. It is 0
    /// if no node is awaited.
    pub(crate) fn early(&self) -> u64 {
        let mut early = None;
        for timer in &self.timers {
            if timer.standing == Standing::Awaited {
                early = earlier(early, timer.early(self.now));
            }
        }
        early.unwrap_or(0)
    }

    /// For how long one of the awaited nodes has been awaited, the last one, by the same. It is 0 if no node is awaited.
    pub(crate) fn waited(&self) -> u64 {
        let mut waited = None;
        for timer in &self.timers {
            if timer.standing == Standing::Awaited {
                waited = earlier(waited, self.now.saturating_sub(timer.first));
            }
        }
        waited.unwrap_or(0)
    }

    /// What is to be done now.
    pub(crate) fn due<R: Clock>(&mut self, rt: &R) -> Idle {
        self.read_clock(rt);
        let (now, pauses) = (self.now, self.pauses);
        let mut is_awaiting = false;
        for number in 1..=MAX_NODES {
            let Some(node) = NodeId::of(number) else {
                continue;
            };
            let timer = self.timer(node);
            if timer.standing == Standing::Awaited {
                is_awaiting = true;
                if let Some(idle) = timer.due(node, now, &pauses) {
                    return idle;
                }
            }
        }
        if is_awaiting {
            return Idle::Sleep;
        }
        self.repeat()
    }

    /// How long it is until something is to be done, in microseconds, as the clock was read last.
    pub(crate) fn left(&self) -> u64 {
        let mut left = u64::MAX;
        for timer in &self.timers {
            if timer.standing == Standing::Awaited {
                left = left.min(timer.left(self.now, &self.pauses));
            }
        }
        if left < u64::MAX {
            left
        } else {
            self.left_to_repeat()
        }
    }

    /// The same if no node is awaited.
    fn left_to_repeat(&self) -> u64 {
        let mut left = u64::MAX;
        for timer in &self.timers {
            if timer.standing == Standing::Heard {
                let repeat = timer.last.saturating_add(u64::from(self.pauses.repeat));
                left = left.min(repeat.saturating_sub(self.now));
            }
        }
        left
    }

    /// If no node is awaited, each one that was sent to is asked again after a while: what it said last may be no answer
    /// to what it was sent last.
    fn repeat(&mut self) -> Idle {
        let (now, pauses) = (self.now, self.pauses);
        for number in 1..=MAX_NODES {
            let Some(node) = NodeId::of(number) else {
                continue;
            };
            let timer = self.timer(node);
            if timer.standing == Standing::Heard
                && timer.since_last(now) >= u64::from(pauses.repeat)
            {
                timer.begin(now, &pauses);
                return Idle::Again(node);
            }
        }
        Idle::Sleep
    }

    /// The next node in turn to which something was sent.
    pub(crate) fn next_nudged(&mut self) -> Option<NodeId> {
        for _ in 0..MAX_NODES {
            self.nudged = if self.nudged < MAX_NODES {
                self.nudged + 1
            } else {
                1
            };
            let node = NodeId::of(self.nudged)?;
            if self.timer(node).standing != Standing::Unasked {
                return Some(node);
            }
        }
        None
    }
}

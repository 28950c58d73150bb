// When a client is to stop waiting.

use lock_messages::{MAX_NODES, NodeId};
use std::alloc::{AllocError, Global};
use std::sync::Arc;
use std::sync::atomic::{AtomicBool, AtomicU32, AtomicU64, Ordering};
use std::time::{Clock, Duration};

/// No deadline.
const NEVER: u64 = u64::MAX;

/// What the copies of a limit share.
#[derive(Drop)]
struct Shared {
    // In microseconds of the clock, or `NEVER`.
    deadline: AtomicU64,
    is_stopped: AtomicBool,
    is_stop_ignored: AtomicBool,
    // How many times as long a node may be silent, and each sleep is.
    times: AtomicU32,
    // For each node when it last answered, in microseconds of the clock, or `NEVER`.
    answers: Vec<AtomicU64>,
}

/// When a client is to stop waiting: at a deadline, or when it is stopped. It also has how patient the client is with nodes,
/// and when each node last answered.
///
/// Its copies are one limit. Another thread may stop it. The client's link reads it while nothing comes, and notes there
/// which node has answered.
#[derive(Drop)]
pub struct Limit {
    shared: Arc<Shared>,
}

/// What the clock reads, in microseconds, if it can be read.
pub(crate) fn micros<R: Clock>(rt: &R) -> Option<u64> {
    let time = rt.monotonic().ok()?;
    u64::try_from(time.as_micros()).ok()
}

/// No node has answered. The only error is running out of memory.
fn no_answers(alloc: Global) -> Result<Vec<AtomicU64>, AllocError> {
    let mut answers = Vec::with_capacity(alloc, MAX_NODES as usize)?;
    for _ in 0..MAX_NODES {
        answers.push(AtomicU64::new(NEVER))?;
    }
    Ok(answers)
}

impl Limit {
    /// A limit without a deadline, which is not stopped. The only error is running out of memory.
    pub fn new(alloc: Global) -> Result<Limit, AllocError> {
        let shared = Shared {
            deadline: AtomicU64::new(NEVER),
            is_stopped: AtomicBool::new(false),
            is_stop_ignored: AtomicBool::new(false),
            times: AtomicU32::new(1),
            answers: no_answers(alloc)?,
        };
        Ok(Limit {
            shared: Arc::new(alloc, shared)?,
        })
    }

    /// The same limit once more, as for another thread. The only error is running out of memory.
    pub fn share(&self) -> Result<Limit, AllocError> {
        Ok(Limit {
            shared: Arc::try_clone(&self.shared)?,
        })
    }

    /// Ends the wait after so long from now. If the clock can't be read there is no deadline.
    pub fn set_deadline<R: Clock>(&self, rt: &R, after: Duration) {
        let after = u64::try_from(after.as_micros()).unwrap_or(NEVER);
        let deadline = micros(rt).map_or(NEVER, |now| now.saturating_add(after));
        self.shared.deadline.store(deadline, Ordering::SeqCst);
    }

    /// Takes the deadline away.
    pub fn clear_deadline(&self) {
        self.shared.deadline.store(NEVER, Ordering::SeqCst);
    }

    /// Lets each node be silent for so many times as long before it counts as gone, and each sleep be so many times as
    /// long, from the next wait on.
    pub fn set_times(&self, times: u32) {
        self.shared.times.store(times, Ordering::SeqCst);
    }

    /// How many times as long each wait is.
    pub(crate) fn times(&self) -> u32 {
        self.shared.times.load(Ordering::SeqCst)
    }

    /// Ends every wait from now on, until `ignore_stop`. Another thread calls this.
    pub fn stop(&self) {
        self.shared.is_stopped.store(true, Ordering::SeqCst);
    }

    /// Lets waits go on although it is or will be stopped, so that a client can still release. A deadline counts.
    pub fn ignore_stop(&self) {
        self.shared.is_stop_ignored.store(true, Ordering::SeqCst);
    }

    /// Whether it was stopped, also if that is ignored.
    pub fn is_stopped(&self) -> bool {
        self.shared.is_stopped.load(Ordering::SeqCst)
    }

    /// Whether the client is to stop waiting now. While the clock can't be read no deadline passes.
    pub fn is_over<R: Clock>(&self, rt: &R) -> bool {
        if self.is_stopped() && !self.shared.is_stop_ignored.load(Ordering::SeqCst) {
            return true;
        }
        let deadline = self.shared.deadline.load(Ordering::SeqCst);
        deadline != NEVER && micros(rt).is_some_and(|now| now >= deadline)
    }

    /// How long it is until the deadline, if there is one and the clock can be read.
    pub(crate) fn left<R: Clock>(&self, rt: &R) -> Option<Duration> {
        let deadline = self.shared.deadline.load(Ordering::SeqCst);
        if deadline == NEVER {
            return None;
        }
        Some(Duration::from_micros(deadline.saturating_sub(micros(rt)?)))
    }

    /// Notes that the node answers now, if the clock can be read.
    pub(crate) fn note_answer<R: Clock>(&self, rt: &R, node: NodeId) {
        let answer = self.shared.answers.get(usize::from(node.get()) - 1);
        if let (Some(answer), Some(now)) = (answer, micros(rt)) {
            answer.store(now, Ordering::SeqCst);
        }
    }

    /// How long ago the node last answered. `None` if it never did, or the clock can't be read.
    pub fn since_answer<R: Clock>(&self, rt: &R, node: NodeId) -> Option<Duration> {
        let answer = self.shared.answers.get(usize::from(node.get()) - 1)?;
        let at = answer.load(Ordering::SeqCst);
        if at == NEVER {
            return None;
        }
        Some(Duration::from_micros(micros(rt)?.saturating_sub(at)))
    }
}

// The targets of a rollout, and how far each has come.

use std::alloc::{AllocError, Global};

/// The targets, by the names of their locks.
pub(crate) const TARGETS: [&str; 4] = ["alpha", "beta", "delta", "gamma"];

/// What is done to each target, in this order: each worker does one of these steps to all of them.
pub(crate) const STEPS: [&str; 3] = ["installed", "restarted", "verified"];

/// In place of a number of steps: somebody is at work on the target.
pub(crate) const AT_WORK: usize = 1_000;

/// What came of the work on all targets. Whoever works on a target, or looks at one, has its lock.
#[derive(Clone, Copy)]
pub(crate) struct Site {
    /// How many steps are done at each target.
    done: [usize; TARGETS.len()],
    /// How often one came to a target while another was at work on it: never, by the locks.
    clashes: u32,
    /// How many came to their end, and how many gave up. Once one has, nobody waits any more for what it would have
    /// done.
    ended: u32,
    pub(crate) gave_up: u32,
}

impl Site {
    /// Nothing is done yet.
    pub(crate) fn new() -> Site {
        Site {
            done: [0; TARGETS.len()],
            clashes: 0,
            ended: 0,
            gave_up: 0,
        }
    }

    /// Whether just these steps are done at a target, for who comes there.
    pub(crate) fn has(&mut self, target: usize, steps: usize) -> bool {
        let done = self.done.get(target).copied().unwrap_or(0);
        if done == AT_WORK {
            self.clashes = self.clashes.saturating_add(1);
        }
        done == steps
    }

    /// Notes how many steps are done at a target.
    pub(crate) fn set(&mut self, target: usize, steps: usize) {
        if let Some(done) = self.done.get_mut(target) {
            *done = steps;
        }
    }

    /// Notes whether one came to its end.
    pub(crate) fn note(&mut self, ended: bool) {
        let count = if ended {
            &mut self.ended
        } else {
            &mut self.gave_up
        };
        *count = count.saturating_add(1);
    }

    /// Adds the targets at which more than these steps are done.
    fn push_targets(&self, text: &mut String, steps: usize) -> Result<(), AllocError> {
        for (name, done) in TARGETS.iter().zip(&self.done) {
            if *done > steps {
                write!(text, " {name}")?;
            }
        }
        text.push_str("\n")
    }

    /// A line for each worker, with the targets to which it did its step, and what the locks came to.
    pub(crate) fn report(&self, alloc: Global) -> Result<String, AllocError> {
        let mut text = String::new(alloc);
        for (place, step) in STEPS.iter().enumerate() {
            write!(text, "worker {} {step}", place + 1)?;
            self.push_targets(&mut text, place)?;
        }
        writeln!(text, "came to their end: {}", self.ended)?;
        writeln!(text, "met another at work: {}", self.clashes)?;
        Ok(text)
    }
}

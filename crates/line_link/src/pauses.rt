// How long a link waits.

use std::time::Duration;

/// How long a link waits for what, in microseconds.
///
/// While nothing comes it sleeps for the least pause first, and each time longer by a 32nd. So a sleep is about a 32nd of
/// the time since something came, but no longer than the longest. The other times are for a client's link alone.
///
/// A client's link learns how long each node takes to answer. It first sleeps for three quarters of that time, and then for
/// about a 16th of the time that it has waited. So it looks a few times for an answer, however long the node takes.
#[derive(Clone, Copy, Debug, PartialEq, Eq)]
pub struct Pauses {
    /// The first sleep.
    pub least: u32,
    /// The longest sleep.
    pub most: u32,
    /// How long it waits before it puts a line again that was not answered. It waits twice as long each time, and at most
    /// as long as `repeat`.
    pub again: u32,
    /// How long a node may be silent before it counts as gone.
    pub silence: u32,
    /// How long it waits before it puts a line again if every node has answered.
    pub repeat: u32,
}

impl Pauses {
    /// The pauses of a client, which waits for answers.
    pub fn of_client() -> Pauses {
        Pauses {
            least: 50,
            most: 10_000,
            again: 20_000,
            silence: 500_000,
            repeat: 1_000_000,
        }
    }

    /// The pauses of a node, which rests.
    pub fn of_node() -> Pauses {
        Pauses {
            least: 50,
            most: 20_000,
            again: 20_000,
            silence: 500_000,
            repeat: 1_000_000,
        }
    }

    /// The same, but a node may be silent for so many times as long, and each sleep is so many times as long.
    pub(crate) fn patient(&self, times: u32) -> Pauses {
        let mut pauses = *self;
        pauses.least = self.least.saturating_mul(times);
        pauses.most = self.most.saturating_mul(times);
        pauses.silence = self.silence.saturating_mul(times);
        pauses
    }

    /// The first sleep if the link has waited for so long already.
    pub(crate) fn first_after(&self, waited: Duration) -> Duration {
        (waited / 16)
            .max(Duration::from_micros(u64::from(self.least)))
            .min(Duration::from_micros(u64::from(self.most)))
    }

    /// The sleep after this one.
    pub(crate) fn after(&self, sleep: Duration) -> Duration {
        sleep
            .saturating_add(sleep / 32)
            .min(Duration::from_micros(u64::from(self.most)))
    }
}

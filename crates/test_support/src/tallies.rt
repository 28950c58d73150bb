// What a random run has done.

use world_model::Effect;

/// How many messages were sent, events taken, entries made, writers softened, and how often a node took the other
/// problem.
#[derive(Clone, Copy)]
pub struct Tally {
    pub sent: u32,
    pub taken: u32,
    pub entered: u32,
    pub softened: u32,
    pub switched: u32,
}

impl Tally {
    /// Nothing was done.
    pub const NONE: Tally = Tally {
        sent: 0,
        taken: 0,
        entered: 0,
        softened: 0,
        switched: 0,
    };

    /// The same after an event with this effect.
    pub fn after(self, effect: &Effect) -> Tally {
        let mut tally = self;
        tally.taken = tally.taken.saturating_add(1);
        match effect {
            Effect::Sent(number, _) => tally.sent = *number,
            Effect::Said { count, .. } => tally.sent = tally.sent.saturating_add(*count),
            Effect::Inside => tally.entered = tally.entered.saturating_add(1),
            Effect::Softened => tally.softened = tally.softened.saturating_add(1),
            Effect::Switched(true) => tally.switched = tally.switched.saturating_add(1),
            _ => {}
        }
        tally
    }
}

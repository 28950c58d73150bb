// A list that no memory holds.

ghost use Rattle.std.specs.Prelude.{◌≡◌, List, [], ◌∷◌, ◌++◌};
ghost use Rattle.std.specs.Borrow.{ftrue};

use std::marker::{Model, PhantomData};

/// Events in the order in which they were added, each with what came of it. It takes no memory: clauses
/// read the list as `items`, and no code can.
#[derive(Drop)]
pub struct EventList<A, B> {
    of: PhantomData<(A, B)>,
    pub ghost items: { List (A × B) },
}

impl<A, B> Model for EventList<A, B> {
    ghost also_owns = { λ _. ftrue };
}

// It owns nothing.
unsafe impl<A: Send, B: Send> Send for EventList<A, B> {}

impl<A, B> EventList<A, B> {
    /// No events.
    pub fn new() -> EventList<A, B>
        ensures { result.items ≡ [] }
    {
        EventList { of: PhantomData }
    }

    /// These events and one more behind them. Both parts are read and not kept.
    pub fn and(&self, event: &A, outcome: &B) -> EventList<A, B>
        ensures { result.items ≡ self.now.items ++ (event.now, outcome.now) ∷ [] }
    {
        EventList { of: PhantomData }
    }
}

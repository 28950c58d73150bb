// The rule of a table that ties a book and its berths, and the steps on it.

use crate::views::{Announcement, View};
use atomic_table::{Join, Play, Split, TableRule};
use std::marker::{Brand, PhantomData};

/// Which world a book is opened with. The call that opens the book picks it.
pub trait OpenedWith {
    ghost use Rattle.world_model.specs.declared.exact.ExactWorld.{ExactWorld};

    ghost world: { ExactWorld };
}

impl OpenedWith for Brand {
    ghost use Rattle.berth_seats.specs.Views.{empty_world};

    ghost world = { empty_world };
}

// The rule reads no word.
pub struct Tie;

impl TableRule<Announcement, View, ()> for Tie {
    ghost use Rattle.berth_seats.specs.Views.{first};
    ghost use Rattle.berth_seats.specs.Ties.{AreTied};

    ghost holds = { λ _ s. AreTied s.views };

    ghost first = { λ _. first };
}

// The book's seat learns the opening.
pub struct Begin<B> {
    opening: PhantomData<B>,
}

impl<B: OpenedWith> Play<Announcement, View> for Begin<B> {
    ghost use Rattle.berth_seats.specs.Steps.{Begins};

    ghost then = { Begins B.world };
}

// What the book's seat does from then on: it gives a berth, adds to the history or looks at it.
pub struct Log;

impl Play<Announcement, View> for Log {
    ghost use Rattle.berth_seats.specs.Steps.{Tells};

    ghost then = { Tells };
}

// The book's seat asks what ties it to the berth that is aboard, and changes nothing.
pub struct Ask;

impl Play<Announcement, View> for Ask {
    ghost use Rattle.berth_seats.specs.Steps.{TellsTie};

    ghost then = { TellsTie };
}

// Takes a berth aboard, and sets it ashore.
pub struct Boarding;

impl Split<View> for Boarding {
    ghost use Rattle.berth_seats.specs.Steps.{ashore, landed};

    ghost left = { ashore };

    ghost right = { landed };
}

impl Join<View> for Boarding {
    ghost use Rattle.berth_seats.specs.Steps.{aboard, idle};

    ghost both = { aboard };

    ghost spent = { idle };
}

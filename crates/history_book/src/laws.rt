//! Laws of what a berth tells of its book. Each function computes nothing: its contract is a theorem.

ghost use Rattle.std.specs.Prelude.{◌≡◌};
ghost use Rattle.history_book.specs.Laws.{BerthsStayInside, BerthsTellWhoIsInside};

use crate::MAX_EVENTS;
use world_model::laws::{inside_until_leave_or_fall, locality};

/// A client that is inside by its berth's own list is inside in the book, with the same ticket, however
/// the book has gone on from what the berth has seen, until this client's own Leave or Fall; its own
/// Soften alone makes the ticket a reader's. Of a berth
/// and its book as they stand the two agree: whatever others log, the client is inside in the book
/// exactly where its own list says so.
pub fn berths_stay_inside()
    ensures stays { BerthsStayInside }
    ensures told { BerthsTellWhoIsInside }
{
    inside_until_leave_or_fall();
    locality();
}

/// The limit by number: a book has at most 4,194,304 events.
pub fn limits()
    ensures events { MAX_EVENTS ≡ 4194304 }
{}

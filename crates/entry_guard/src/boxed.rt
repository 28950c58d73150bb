// A client core in a box, which enters and leaves by an entry of its own.

ghost use Rattle.std.specs.Prelude.{◌≡◌, ◌↔◌, Some, IsSome, IfSome, IfOk};
ghost use Rattle.client_core.specs.Clients.{Client, ticket_of as client_ticket};
ghost use Rattle.client_core.specs.Calls.{MayEnter, entered};
ghost use Rattle.entry_guard.specs.Doors.{is_client_inside, ClientLeaves};

use crate::{Door, OwnedEntry};
use client_core::ClientCore;
use lock_messages::Ticket;
use std::alloc::{AllocError, Global};

/// What is seen of a door that was entered and left.
#[derive(Clone, Copy, Debug, PartialEq, Eq)]
pub struct Seen {
    /// The ticket with which it entered.
    pub with: Ticket,
    /// Its ticket after it left.
    pub ticket: Option<Ticket>,
    /// Whether it is inside after it left.
    pub inside: bool,
}

/// A client's core enters by an `OwnedEntry` and leaves, and what is seen of it then; `None` exactly
/// where it may not enter.
///
/// The core left in its box as one does that is not boxed: it is idle after the same attempt, and has
/// its release to say to each node of its ballot. The only error is want of memory for the box.
/// It returns what is seen of the door and not the door: a call that made a box may not hand it out.
pub fn enter_and_leave(alloc: Global, core: ClientCore) -> Result<Option<Seen>, AllocError>
    ensures entered { IfOk result (λ o. IsSome o ↔ MayEnter core) }
    ensures with { IfOk result (λ o. IfSome o (λ seen. client_ticket core ≡ Some seen.with)) }
    ensures left { IfOk result (λ o. IfSome o (λ seen. (after : Client) × ClientLeaves (entered core) after × (seen.ticket ≡ client_ticket after) × (seen.inside ≡ is_client_inside after))) }
{
    let door: Box<dyn Door + Send> = match Box::new(alloc, core) {
        Ok(boxed) => boxed,
        Err(_) => return Err(AllocError),
    };
    let Ok(entry) = OwnedEntry::enter(door) else {
        return Ok(None);
    };
    let with = entry.ticket();
    let door = entry.leave();
    Ok(Some(Seen {
        with,
        ticket: door.ticket(),
        inside: door.inside(),
    }))
}

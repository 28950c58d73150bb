// A guard over a door of its own.

ghost use Rattle.std.specs.Prelude.{◌≡◌, ◌↔◌, true, false, Some, IsOk, IfOk, IfErr};
ghost use Rattle.lock_messages.specs.declared.tickets.Mode.TheVariants.{Write};
ghost use Rattle.client_core.specs.Clients.{softened_ticket};
ghost use Rattle.entry_guard.specs.Doors.{IsInsideWith, MaySoften};
ghost use Rattle.entry_guard.specs.Guards.{entry_door, entry_ticket, HasDoor};

use crate::Door;
use lock_messages::{Mode, Ticket};

/// A door of its own that is inside. It leaves, and is handed back, by `leave`; an entry that is
/// dropped unspent leaves too, and its door is dropped with it. It takes no memory and does not wait. A
/// writer's entry can be softened; its door is inside as a reader's then.
///
/// An entry that is forgotten leaves its door inside.
pub struct OwnedEntry {
    door: Box<dyn Door + Send>,
    ticket: Ticket,
}

/// The door, outside.
fn left(door: Box<dyn Door + Send>) -> Box<dyn Door + Send>
    requires { Unit {0} }
    ensures leaves { is_inside door ≡ true → HasDoor door result (leaves door) }
    ensures outside { is_inside result ≡ false }
    ensures untouched { is_inside door ≡ false → result ≡ door }
{
    let mut door = door;
    if door.inside() {
        door.leave();
    }
    door
}

/// Drops the door, which has to be outside.
fn discard(door: Box<dyn Door + Send>)
    requires { is_inside door ≡ false }
{
    drop(door);
}

impl OwnedEntry {
    /// Enters, where the door may; else hands it back, unchanged.
    pub fn enter(door: Box<dyn Door + Send>) -> Result<OwnedEntry, Box<dyn Door + Send>>
        requires { Unit {0} }
        ensures entered { IsOk result ↔ can_enter door }
        ensures enters { IfOk result (λ entry. HasDoor door (entry_door entry) (enters door)) }
        ensures inside { IfOk result (λ entry. is_inside (entry_door entry) ≡ true) }
        ensures ticket { IfOk result (λ entry. ticket_of door ≡ Some (entry_ticket entry)) }
        ensures held { IfOk result (λ entry. IsInsideWith (entry_ticket entry) (is_inside (entry_door entry)) (ticket_of (entry_door entry))) }
        ensures refused { IfErr result (λ back. back ≡ door) }
    {
        let mut door = door;
        if !door.may_enter() {
            return Err(door);
        }
        door.enter();
        let ticket = door.ticket().unwrap();
        Ok(OwnedEntry { door, ticket })
    }

    /// The ticket with which the door is inside: the one with which it entered and, once the entry is
    /// softened, that as a reader's.
    pub fn ticket(&self) -> Ticket
        ensures { result ≡ entry_ticket self.now }
    {
        self.ticket
    }

    /// Softens: the door softens, once, and the ticket is a reader's from now on, of the same client,
    /// attempt and resource. The door is still inside, and leaves by `leave` or the drop, as any. It takes
    /// no memory and does not wait.
    ///
    /// The caller owes that the mode of the entry's ticket is `Write`.
    pub fn soften(&mut self)
        requires { (entry_ticket self.old).mode ≡ Write }
        ensures softens { IsInsideWith (entry_ticket self.old) (is_inside (entry_door self.old)) (ticket_of (entry_door self.old)) → HasDoor (entry_door self.old) (entry_door self.new) (softens (entry_door self.old)) }
        ensures ticket { entry_ticket self.new ≡ softened_ticket (entry_ticket self.old) }
        ensures held { IsInsideWith (entry_ticket self.old) (is_inside (entry_door self.old)) (ticket_of (entry_door self.old)) → IsInsideWith (entry_ticket self.new) (is_inside (entry_door self.new)) (ticket_of (entry_door self.new)) }
        ensures untouched { (MaySoften (is_inside (entry_door self.old)) (ticket_of (entry_door self.old)) → ⊥) → entry_door self.new ≡ entry_door self.old }
    {
        self.ticket.mode = Mode::Read;
        if self.door.may_soften() {
            self.door.soften();
        }
    }

    /// The door, outside: the one of the entry, which left.
    pub fn leave(self) -> Box<dyn Door + Send>
        requires { Unit {0} }
        ensures leaves { is_inside (entry_door self) ≡ true → HasDoor (entry_door self) result (leaves (entry_door self)) }
        ensures outside { is_inside result ≡ false }
        ensures untouched { is_inside (entry_door self) ≡ false → result ≡ entry_door self }
    {
        let OwnedEntry { door, ticket: _ } = self;
        left(door)
    }
}

impl Drop for OwnedEntry {
    fn drop(self) {
        let OwnedEntry { ticket: _, door } = self;
        discard(left(door));
    }
}

// A guard over a borrowed door.

ghost use Rattle.std.specs.Prelude.{◌≡◌, ◌↔◌, true, false, Some, IsSome, IfSome, IfNone};
ghost use Rattle.std.specs.Borrow.{sem, RestsIfNone};
ghost use Rattle.client_core.specs.contracts.clients.ClientCore.{the_row as client_row};
ghost use Rattle.lock_messages.specs.declared.tickets.Mode.TheVariants.{Write};
ghost use Rattle.client_core.specs.Clients.{ticket_of as client_ticket, softened_ticket};
ghost use Rattle.client_core.specs.Calls.{MayEnter, entered};
ghost use Rattle.entry_guard.specs.Doors.{is_client_inside, MaySoften};
ghost use Rattle.entry_guard.specs.Guards.{door_of, lender_of, guard_ticket, IsHeld};

use crate::Door;
use client_core::ClientCore;
use lock_messages::{Mode, Ticket};

/// A borrowed door that is inside, and leaves when the guard is dropped: on every path out of its
/// scope, at its end, at a `?`, at a return in the middle. It takes no memory and does not wait. A
/// writer's guard can be softened; its door is inside as a reader's then. A door that isn't inside stays
/// as it is; no guard that is made here has one.
///
/// A guard that is forgotten leaves its door inside.
pub struct EntryGuard<'a, D: Door> {
    door: &'a mut D,
    ticket: Ticket,
}

impl<'a, D: Door> EntryGuard<'a, D> {
    /// The guard of a door that enters.
    fn of(door: &'a mut D) -> EntryGuard<'a, D>
        requires { D.can_enter door.old }
        ensures same_door { lender_of result ≡ door.entry.ghost_name }
        ensures enters { D.enters door.old (door_of result) }
        ensures inside { D.is_inside (door_of result) ≡ true }
        ensures ticket { D.ticket_of door.old ≡ Some (guard_ticket result) }
        ensures held { IsHeld D.is_inside D.ticket_of result }
    {
        door.enter();
        let ticket = door.ticket().unwrap();
        EntryGuard { door, ticket }
    }

    /// The guard, where the door may enter; else the door back, unchanged.
    /// The checker proves by itself that the door rests at None only if the door's type is a named struct. For a type
    /// parameter a proof of the walk stands in its place (proofs/), over this call, which hands the door back.
    fn guard_or_door(door: &'a mut D) -> (Option<EntryGuard<'a, D>>, Option<&'a mut D>)
        ensures entered { IsSome result.0 ↔ D.can_enter door.old }
        ensures same_door { IfSome result.0 (λ guard. lender_of guard ≡ door.entry.ghost_name) }
        ensures enters { IfSome result.0 (λ guard. D.enters door.old (door_of guard)) }
        ensures inside { IfSome result.0 (λ guard. D.is_inside (door_of guard) ≡ true) }
        ensures ticket { IfSome result.0 (λ guard. D.ticket_of door.old ≡ Some (guard_ticket guard)) }
        ensures held { IfSome result.0 (IsHeld D.is_inside D.ticket_of) }
        ensures back { IfNone result.0 (result.1 ≡ Some door.entry) }
    {
        if door.may_enter() {
            (Some(EntryGuard::of(door)), None)
        } else {
            (None, Some(door))
        }
    }

    /// Enters, where the door may. `None` exactly where it may not; the door is then only asked, and
    /// unchanged.
    ///
    /// What a door ends as after a `None` is proved here for every type of door. A caller's proof
    /// that the borrow checker makes learns it of a client core alone, by `enter_client`; at another
    /// type such a caller asks `may_enter` first.
    pub fn enter(door: &'a mut D) -> Option<EntryGuard<'a, D>>
        ensures* unchanged_at_none { sem 𝓛 (RestsIfNone D.row door.entry lender_of result (λ last. last ≡ door.old)) }
        ensures entered { IsSome result ↔ D.can_enter door.old }
        ensures same_door { IfSome result (λ guard. lender_of guard ≡ door.entry.ghost_name) }
        ensures enters { IfSome result (λ guard. D.enters door.old (door_of guard)) }
        ensures inside { IfSome result (λ guard. D.is_inside (door_of guard) ≡ true) }
        ensures ticket { IfSome result (λ guard. D.ticket_of door.old ≡ Some (guard_ticket guard)) }
        ensures held { IfSome result (IsHeld D.is_inside D.ticket_of) }
    {
        EntryGuard::guard_or_door(door).0
    }

    /// The ticket with which the door is inside: the one with which it entered and, once the guard is
    /// softened, that as a reader's.
    pub fn ticket(&self) -> Ticket
        ensures { result ≡ guard_ticket self.now }
    {
        self.ticket
    }

    /// The door, to be looked at.
    pub fn door(&self) -> &D
        ensures { result.now ≡ door_of self.now }
    {
        self.door
    }

    /// Softens: the door softens, once, and the ticket is a reader's from now on, of the same client,
    /// attempt and resource. The door is still inside, and leaves when the guard is dropped, as any. It
    /// takes no memory and does not wait.
    ///
    /// The caller owes that the mode of the guard's ticket is `Write`.
    pub fn soften(&mut self)
        requires { (guard_ticket self.old).mode ≡ Write }
        ensures same_door { lender_of self.new ≡ lender_of self.old }
        ensures softens { IsHeld D.is_inside D.ticket_of self.old → D.softens (door_of self.old) (door_of self.new) }
        ensures ticket { guard_ticket self.new ≡ softened_ticket (guard_ticket self.old) }
        ensures held { IsHeld D.is_inside D.ticket_of self.old → IsHeld D.is_inside D.ticket_of self.new }
        ensures untouched { (MaySoften (D.is_inside (door_of self.old)) (D.ticket_of (door_of self.old)) → ⊥) → door_of self.new ≡ door_of self.old }
    {
        self.ticket.mode = Mode::Read;
        if self.door.may_soften() {
            self.door.soften();
        }
    }
}

impl<D: Door> Drop for EntryGuard<'_, D> {
    fn drop(self)
        ensures leaves { D.is_inside (door_of self.entry) ≡ true → D.leaves (door_of self.entry) self.exit.0.now }
        ensures outside { D.is_inside self.exit.0.now ≡ false }
        ensures untouched { D.is_inside (door_of self.entry) ≡ false → self.exit.0.now ≡ door_of self.entry }
    {
        let EntryGuard { door, ticket: _ } = self;
        if door.inside() {
            door.leave();
        }
    }
}

/// Enters, where the client may: `EntryGuard::enter` of a client core, with the clause that the core
/// is unchanged at `None`.
pub fn enter_client(core: &mut ClientCore) -> Option<EntryGuard<'_, ClientCore>>
    ensures* unchanged_at_none { sem 𝓛 (RestsIfNone client_row core.entry lender_of result (λ last. last ≡ core.old)) }
    ensures entered { IsSome result ↔ MayEnter core.old }
    ensures same_door { IfSome result (λ guard. lender_of guard ≡ core.entry.ghost_name) }
    ensures inside { IfSome result (λ guard. door_of guard ≡ entered core.old) }
    ensures ticket { IfSome result (λ guard. client_ticket core.old ≡ Some (guard_ticket guard)) }
    ensures held { IfSome result (IsHeld is_client_inside client_ticket) }
{
    if core.may_enter() {
        Some(EntryGuard::of(core))
    } else {
        None
    }
}

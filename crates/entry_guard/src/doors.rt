// Doors: what can be entered and left.

ghost use Rattle.std.specs.Prelude.{◌≡◌, ◌↔◌, Bool, true, false, Option, IsTrue, IsSome};
ghost use Rattle.std.specs.Option.{option_map};
ghost use Rattle.lock_messages.specs.declared.tickets.Ticket.{Ticket};
ghost use Rattle.client_core.specs.Clients.{softened_ticket};
ghost use Rattle.entry_guard.specs.Doors.{MaySoften};

use client_core::{ClientCore, Phase};
use lock_messages::Ticket;

/// What can be entered and left.
///
/// What a door is, is in the ghost members: the ticket that it has, whether it is inside, whether it
/// may enter, and what entering, softening and leaving make of it. Where it is inside with a writer's
/// ticket it may soften, and is inside as a reader then.
pub trait Door: Drop {
    ghost ticket_of: { Self → Option Ticket };

    ghost is_inside: { Self → Bool };

    ghost can_enter: { Self → Type 0 };

    ghost enters: { Self → Self → Type 0 };

    ghost softens: { Self → Self → Type 0 };

    ghost leaves: { Self → Self → Type 0 };

    /// The ticket that the door has, if any. A door that is inside has one.
    fn ticket(&self) -> Option<Ticket>
        ensures ticket { result ≡ ticket_of self.now }
        ensures held { IsTrue (is_inside self.now) → IsSome result };

    /// Whether the door is inside.
    fn inside(&self) -> bool
        ensures { result ≡ is_inside self.now };

    /// Whether the door may enter.
    fn may_enter(&self) -> bool
        ensures { IsTrue result ↔ can_enter self.now };

    /// Enters, with the ticket that it has.
    ///
    /// The caller owes that it may; `may_enter` tells.
    fn enter(&mut self)
        requires { can_enter self.old }
        ensures enters { enters self.old self.new }
        ensures inside { is_inside self.new ≡ true }
        ensures ticket { ticket_of self.new ≡ ticket_of self.old };

    /// Whether the door may soften: it is inside with a writer's ticket.
    fn may_soften(&self) -> bool
        ensures { IsTrue result ↔ MaySoften (is_inside self.now) (ticket_of self.now) };

    /// Softens (our own rule): the ticket is a reader's from now on, of the same client, attempt and
    /// resource, and the door is still inside.
    ///
    /// The caller owes that it may; `may_soften` tells.
    fn soften(&mut self)
        requires { MaySoften (is_inside self.old) (ticket_of self.old) }
        ensures softens { softens self.old self.new }
        ensures inside { is_inside self.new ≡ true }
        ensures ticket { ticket_of self.new ≡ option_map softened_ticket (ticket_of self.old) };

    /// Leaves.
    ///
    /// The caller owes that the door is inside; `inside` tells.
    fn leave(&mut self)
        requires { is_inside self.old ≡ true }
        ensures leaves { leaves self.old self.new }
        ensures outside { is_inside self.new ≡ false };
}

impl Door for ClientCore {
    ghost use Rattle.std.specs.Prelude.{◌≡◌};
    ghost use Rattle.client_core.specs.Clients.{ticket_of as client_ticket};
    ghost use Rattle.client_core.specs.Calls.{MayEnter, entered};
    ghost use Rattle.entry_guard.specs.Doors.{is_client_inside, ClientSoftens, ClientLeaves};

    ghost ticket_of = { client_ticket };

    ghost is_inside = { is_client_inside };

    ghost can_enter = { MayEnter };

    ghost enters = { λ c d. d ≡ entered c };

    ghost softens = { ClientSoftens };

    ghost leaves = { ClientLeaves };

    fn ticket(&self) -> Option<Ticket> {
        ClientCore::ticket(self)
    }

    fn inside(&self) -> bool {
        self.phase() == Phase::Inside
    }

    fn may_enter(&self) -> bool {
        ClientCore::may_enter(self)
    }

    fn enter(&mut self) {
        ClientCore::enter(self);
    }

    fn may_soften(&self) -> bool {
        ClientCore::may_soften(self)
    }

    fn soften(&mut self) {
        ClientCore::soften(self);
    }

    fn leave(&mut self) {
        ClientCore::leave(self);
    }
}

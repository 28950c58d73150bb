// What a recorder over a log that actors share can be asked of others.

ghost use Rattle.std.specs.Prelude.{◌≡◌, ◌⊎◌, IfOk, IfErr};
ghost use Rattle.event_recorders.specs.Sharing.{HaveMet, HasSeenInside};

use crate::{LogFault, Recorder};
use lock_messages::{ResourceName, Ticket};

/// A recorder over a log that actors share, which can be asked of others than its actor.
pub trait SharedRecorder: Recorder {
    /// Whether the two recorders are of two clients inside one resource; then both read. Their own logs stay as they
    /// are.
    ///
    /// The only error is that they are recorders of two books (815), which changes nothing.
    fn meet(&mut self, other: &mut Self) -> Result<bool, LogFault>
        ensures met { IfOk result (λ met. HaveMet met (Self.own_log self.old) (Self.own_log other.old) (Self.own_log self.new) (Self.own_log other.new)) }
        ensures err { IfErr result (λ f. (f ≡ LogFault.OtherBook) × (Self.own_log self.new ≡ Self.own_log self.old) × (Self.own_log other.new ≡ Self.own_log other.old)) };

    /// The tickets of the clients that are inside the resource, in the order of the clients, as a history has
    /// it in which the recorder's actor is as its own log tells; a writer among them is the only one. The own log stays
    /// as it is. (That it is the one history of all, as it is when it is asked, no own log can tell: a berth does,
    /// at a recorder over a book.)
    ///
    /// The errors: the recorder's berth is another book's (815), or it ran out of memory (813).
    fn inside(&mut self, resource: &ResourceName) -> Result<Vec<Ticket>, LogFault>
        ensures seen { IfOk result (λ tickets. HasSeenInside (Self.own_log self.old) resource.now tickets.items (Self.own_log self.new)) }
        ensures err { IfErr result (λ f. ((f ≡ LogFault.OtherBook) ⊎ (f ≡ LogFault.Memory)) × (Self.own_log self.new ≡ Self.own_log self.old)) };
}

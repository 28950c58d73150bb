// What is called beside the work.

ghost use Rattle.std.specs.Prelude.{◌≡◌, Some};
ghost use Rattle.world_model.specs.Staying.{inside_ticket};
ghost use Rattle.entry_guard.specs.Guards.{guard_ticket};
ghost use Rattle.event_recorders.specs.OwnLogs.{part_now};

use crate::Recorder;
use client_core::ClientCore;
use entry_guard::EntryGuard;
use lock_messages::Actor;

/// What threads call beside their work: what a client does inside its resource, and a halt before a
/// record is kept. A gate may wait. It isn't for `dyn`, since `while_inside` is generic.
pub trait Gate {
    /// The actor has logged that it starts to keep its record, and calls this before it keeps it.
    fn before_keep(&self, actor: Actor);

    /// The client is inside, by this guard. When this returns the client leaves or, where its wish softens, softens,
    /// and this is called once more before it leaves.
    ///
    /// The caller owes that the client's own log has it inside with the guard's ticket.
    fn while_inside<R: Recorder>(&self, recorder: &R, guard: &EntryGuard<'_, ClientCore>)
        requires { inside_ticket (part_now (R.own_log recorder.now)) ≡ Some (guard_ticket guard.now) };
}

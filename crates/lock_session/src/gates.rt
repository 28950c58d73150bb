// A gate that lets pass.

use client_core::ClientCore;
use entry_guard::EntryGuard;
use event_recorders::{Gate, Recorder};
use lock_messages::Actor;

/// A gate that lets pass at once: nobody waits at it, and a client that is inside does nothing there.
pub struct OpenGate;

impl Gate for OpenGate {
    fn before_keep(&self, actor: Actor) {
        let _ = actor;
    }

    fn while_inside<R: Recorder>(&self, recorder: &R, guard: &EntryGuard<'_, ClientCore>) {
        let _ = recorder;
        let _ = guard;
    }
}

// The recorder of an actor that logs for itself.

ghost use Rattle.std.specs.Prelude.{◌≡◌, true, false, None, IfOk, IfErr};
ghost use Rattle.lock_messages.specs.Messages.{is_for};
ghost use Rattle.world_model.specs.Parts.{is_own, own_refusal};
ghost use Rattle.event_recorders.specs.OwnLogs.{IsAdded, IsRecorderFault, part_now, reads};
ghost use Rattle.node_loop.specs.Standing.{as_opened};
ghost use Rattle.own_threads.specs.Beginnings.{Beginning, IsOwnLog, begun};

use event_recorders::{LogFault, Recorder};
use lock_messages::Message;
use own_recorders::{OwnActor, OwnRecorder};
use std::io::Write;
use world_model::{Effect, Event};

/// The recorder of an actor that logs for itself: each event is a turn of the actor's own part of the world, so its log
/// is an own run.
///
/// `beginning`, which no code computes, is with what it began: its log before any event, and what the writer of its
/// journal held, if that is known.
pub trait ActorRecorder: Recorder + Drop {
    ghost beginning: { Self → Beginning };

    /// Logs an event that reads no message, as `Recorder::log` does.
    ///
    /// The caller owes that the event is the actor's and that its own log allows it.
    fn log_act(&mut self, event: Event) -> Result<Effect, LogFault>
        requires own { is_own (Self.own_log self.old).actor event ≡ true }
        requires allowed { own_refusal (Self.own_log self.old).ballots event (part_now (Self.own_log self.old)) ≡ None }
        requires plain { reads event ≡ false }
        ensures logged { IfOk result (λ done. IsAdded (Self.own_log self.old) event done (Self.own_log self.new)) }
        ensures refused { IfErr result (λ fault. IsRecorderFault event fault × (Self.own_log self.new ≡ Self.own_log self.old)) }
        ensures same { beginning self.new ≡ beginning self.old };

    /// Logs that the actor takes or hears this message, as `Recorder::log_reading` does.
    ///
    /// The caller owes what `log_act` asks for, and that the message is for the actor.
    fn log_read(&mut self, event: Event, message: &Message) -> Result<Effect, LogFault>
        requires own { is_own (Self.own_log self.old).actor event ≡ true }
        requires allowed { own_refusal (Self.own_log self.old).ballots event (part_now (Self.own_log self.old)) ≡ None }
        requires reading { reads event ≡ true }
        requires addressed { is_for (Self.own_log self.old).actor message.now ≡ true }
        ensures logged { IfOk result (λ done. IsAdded (Self.own_log self.old) event done (Self.own_log self.new)) }
        ensures refused { IfErr result (λ fault. IsRecorderFault event fault × (Self.own_log self.new ≡ Self.own_log self.old)) }
        ensures same { beginning self.new ≡ beginning self.old };

    /// Shows that the log is an own run from its beginning on. It computes nothing.
    fn show(&self)
        ensures run { IsOwnLog (Self.own_log self.now) }
        ensures began { (beginning self.now).log ≡ as_opened (Self.own_log self.now) };
}

impl<K: OwnActor, W: Write + Drop> ActorRecorder for OwnRecorder<K, W> {
    ghost beginning = { λ r. begun r };

    fn log_act(&mut self, event: Event) -> Result<Effect, LogFault> {
        self.log_event(event)
    }

    fn log_read(&mut self, event: Event, message: &Message) -> Result<Effect, LogFault> {
        self.log_message(event, message)
    }

    fn show(&self) {
        self.tell();
    }
}

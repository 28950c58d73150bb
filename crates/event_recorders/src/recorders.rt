// What it means to be a recorder.

ghost use Rattle.std.specs.Prelude.{◌≡◌, true, None, IfOk, IfErr};
ghost use Rattle.lock_messages.specs.Messages.{is_for};
ghost use Rattle.world_model.specs.Parts.{is_own, own_refusal};
ghost use Rattle.event_recorders.specs.OwnLogs.{OwnLog, part_now, FindsAfter, IsAdded, IsRecorderFault, reads};

use crate::LogFault;
use lock_messages::Message;
use stable_record::StableRecord;
use world_model::{Effect, Event};

/// One actor's way to a log.
///
/// What it means is in one word, which no code computes. `own_log`: its actor, the ballots and the
/// actor's part of the world as the log was opened, and the actor's events since then with their
/// effects. It tells the actor's part of the world as it is now (`part_now`). The rules are our own.
pub trait Recorder {
    ghost own_log: { Self → OwnLog };

    /// Logs an event of its actor, and returns what it did. A Take or a Hear goes by `log_reading`, since a log of the
    /// actor's own has no other way to the message; a log that all actors share takes it here too.
    ///
    /// The caller owes that the event is the actor's and that its own log allows it, and hands in the
    /// actor's record (`stable`), which is not called: a restart has to find there just the bytes that are
    /// kept after the event or, while something is tried then, no others than the kept and the tried
    /// ones. So an actor logs that it has kept something only once its record has it.
    ///
    /// The errors leave the log as it was: nothing more can be logged (812), it ran out of memory (813), the berth is
    /// another book's (815), and of a message that is taken or heard the log knows none of this number for the
    /// actor (811 with 607 or 608). It may wait for a lock.
    fn log(&mut self, event: Event, stable: &dyn StableRecord) -> Result<Effect, LogFault>
        requires own { is_own (own_log self.old).actor event ≡ true }
        requires allowed { own_refusal (own_log self.old).ballots event (part_now (own_log self.old)) ≡ None }
        requires found { FindsAfter (own_log self.old) event (finds stable.now) }
        // The event joins the log with its effect, which is of its kind, and a message that it carries is for
        // this actor.
        ensures logged { IfOk result (λ done. IsAdded (own_log self.old) event done (own_log self.new)) }
        ensures refused { IfErr result (λ fault. IsRecorderFault event fault × (own_log self.new ≡ own_log self.old)) };

    /// Logs that the actor takes or hears this message, which came under the event's number, and returns what that did.
    ///
    /// A log that all actors share takes the message that was sent under the number, whatever came. A log of the
    /// actor's own takes the one that came. Either way the effect has the message that was taken.
    ///
    /// The caller owes what `log` asks for, and that the message is for the actor. The errors are those of `log`.
    fn log_reading(
        &mut self,
        event: Event,
        message: &Message,
        stable: &dyn StableRecord,
    ) -> Result<Effect, LogFault>
        requires own { is_own (own_log self.old).actor event ≡ true }
        requires allowed { own_refusal (own_log self.old).ballots event (part_now (own_log self.old)) ≡ None }
        requires reading { reads event ≡ true }
        requires addressed { is_for (own_log self.old).actor message.now ≡ true }
        requires found { FindsAfter (own_log self.old) event (finds stable.now) }
        ensures logged { IfOk result (λ done. IsAdded (own_log self.old) event done (own_log self.new)) }
        ensures refused { IfErr result (λ fault. IsRecorderFault event fault × (own_log self.new ≡ own_log self.old)) };
}

// A recorder that writes no journal.

ghost use Rattle.std.specs.Prelude.{◌≡◌, [], None};
ghost use Rattle.event_recorders.specs.OwnLogs.{IsDownAtRest};
ghost use Rattle.own_threads.specs.Beginnings.{unwritten};

use crate::recorders::ActorRecorder;
use event_lists::EventList;
use event_recorders::laws::own_logs_tell_parts;
use event_recorders::{LogFault, Recorder};
use lock_messages::Message;
use own_recorders::OwnActor;
use stable_record::StableRecord;
use std::marker::Model;
use world_model::{Effect, Event, StepFault};

/// The recorder of an actor that logs for itself and writes no journal.
///
/// It steps the actor, and returns what the event did. Contracts see the log, which no memory holds. So it takes no more
/// memory than its actor, however long it goes on.
#[derive(Drop)]
pub struct QuietRecorder<K: OwnActor> {
    actor: K,
    opened: EventList<K, ()>,
    made: EventList<Event, Effect>,
}

impl<K: OwnActor> Model for QuietRecorder<K> {
    ghost use Rattle.event_recorders.specs.OwnLogs.{OwnLog};
    ghost use Rattle.own_threads.specs.Beginnings.{log_of_parts, IsQuiet};

    ghost Value = { OwnLog };

    ghost view = { λ r. log_of_parts K.actor K.ballots K.part r.actor r.opened.items r.made.items };

    ghost invariant = { λ r. IsQuiet (log_of_parts K.actor K.ballots K.part r.actor r.opened.items r.made.items) (K.part r.actor) };
}

impl<K: OwnActor> QuietRecorder<K> {
    /// The recorder of an actor. Its log opens with the actor's part as it is now.
    ///
    /// The caller owes an actor that is down with nothing tried, so that its first event is its rise.
    pub fn over(actor: K) -> QuietRecorder<K>
        requires { IsDownAtRest (K.actor actor) (K.part actor) }
        ensures { result ≡ record { actor = K.actor actor; ballots = K.ballots actor; opening = K.part actor; events = [] } }
    {
        let opened = EventList::new().and(&actor, &());
        QuietRecorder {
            actor,
            opened,
            made: EventList::new(),
        }
    }
}

impl<K: OwnActor> Recorder for QuietRecorder<K> {
    ghost own_log = { λ r. r };

    /// Logs an event as `log_act` does. A Take or a Hear without its message is refused (811 with 607), because there is
    /// no list of messages here.
    fn log(&mut self, event: Event, stable: &dyn StableRecord) -> Result<Effect, LogFault> {
        let _ = stable;
        if let Event::Take(..) | Event::Hear(..) = event {
            return Err(LogFault::NotAStep(StepFault::NoSuchMessage));
        }
        self.log_act(event)
    }

    /// Logs that the actor takes or hears the message, as `log_read` does.
    fn log_reading(
        &mut self,
        event: Event,
        message: &Message,
        stable: &dyn StableRecord,
    ) -> Result<Effect, LogFault> {
        let _ = stable;
        self.log_read(event, message)
    }
}

impl<K: OwnActor> ActorRecorder for QuietRecorder<K> {
    ghost beginning = { λ r. unwritten r };

    fn log_act(&mut self, event: Event) -> Result<Effect, LogFault> {
        own_logs_tell_parts();
        let Ok(done) = self.actor.act(event) else {
            return Err(LogFault::Memory);
        };
        self.made = self.made.and(&event, &done);
        Ok(done)
    }

    fn log_read(&mut self, event: Event, message: &Message) -> Result<Effect, LogFault> {
        own_logs_tell_parts();
        let Ok(done) = self.actor.read(event, message) else {
            return Err(LogFault::Memory);
        };
        self.made = self.made.and(&event, &done);
        Ok(done)
    }

    fn show(&self) {
        let _actor = &self.actor;
    }
}

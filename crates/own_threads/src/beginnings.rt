// A recorder whose beginning is known.

ghost use Rattle.std.specs.Prelude.{◌≡◌};
ghost use Rattle.own_threads.specs.Beginnings.{Beginning as BeginningValue, no_beginning};

use crate::recorders::ActorRecorder;
use event_recorders::{LogFault, Recorder};
use lock_messages::Message;
use stable_record::StableRecord;
use std::marker::{Brand, Model, PhantomData};
use world_model::{Effect, Event, StepFault};

/// With what an actor's thread began. The call that runs the actor picks it.
pub(crate) trait Beginning {
    ghost beginning: { BeginningValue };
}

impl Beginning for Brand {
    ghost beginning = { no_beginning };
}

/// A recorder that began with this beginning. Contracts see its log.
///
/// Of a recorder that was lent to a program's work nothing is known but what its type says. So the type says how the
/// recorder began.
#[derive(Drop)]
pub(crate) struct Begun<B: Beginning, K: ActorRecorder> {
    recorder: K,
    beginning: PhantomData<B>,
}

impl<B: Beginning, K: ActorRecorder> Model for Begun<B, K> {
    ghost use Rattle.std.specs.Prelude.{◌≡◌};
    ghost use Rattle.event_recorders.specs.OwnLogs.{OwnLog};

    ghost Value = { OwnLog };

    ghost view = { λ r. K.Recorder.own_log r.recorder };

    ghost invariant = { λ r. K.beginning r.recorder ≡ B.beginning };
}

impl<B: Beginning, K: ActorRecorder> Begun<B, K> {
    /// The recorder under the name of its beginning. The caller owes that it began so.
    pub(crate) fn of(recorder: K) -> Begun<B, K>
        requires { K.beginning recorder ≡ B.beginning }
        ensures { result ≡ K.Recorder.own_log recorder }
    {
        Begun {
            recorder,
            beginning: PhantomData,
        }
    }

    /// The recorder, which began so.
    pub(crate) fn into_recorder(self) -> K
        ensures log { K.Recorder.own_log result ≡ self }
        ensures began { K.beginning result ≡ B.beginning }
    {
        self.recorder
    }
}

impl<B: Beginning, K: ActorRecorder> Recorder for Begun<B, K> {
    ghost own_log = { λ r. r };

    /// Logs an event as `ActorRecorder::log_act` does. A Take or a Hear without its message is refused (811 with 607).
    fn log(&mut self, event: Event, stable: &dyn StableRecord) -> Result<Effect, LogFault> {
        let _ = stable;
        if let Event::Take(..) | Event::Hear(..) = event {
            return Err(LogFault::NotAStep(StepFault::NoSuchMessage));
        }
        self.recorder.log_act(event)
    }

    /// Logs that the actor takes or hears the message, as `ActorRecorder::log_read` does.
    fn log_reading(
        &mut self,
        event: Event,
        message: &Message,
        stable: &dyn StableRecord,
    ) -> Result<Effect, LogFault> {
        let _ = stable;
        self.recorder.log_read(event, message)
    }
}

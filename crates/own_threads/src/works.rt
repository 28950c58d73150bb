// What a program does while its service runs.

ghost use Rattle.lock_session.specs.Sessions.{IsResting};

use event_recorders::Recorder;
use lock_session::{OwnRecord, Session};
use lossy_link::Link;
use std::alloc::Global;
use std::sync::Wait;

/// What a program does while its service runs: with the session of each client, in a thread of its own.
///
/// It is a trait and no closure, because the method is generic over the session. The type of a session names its client's
/// beginning, which no program can name.
pub trait OwnWork {
    /// Works with the session of a client, which has risen and rests. `Session::client` returns whose it is.
    ///
    /// When it returns, the client says what a guard that was dropped has left to say, and its session is taken apart. A
    /// node learns so that the client is gone.
    fn work<W: Wait, S: OwnRecord, R: Recorder, L: Link>(
        &self,
        rt: &W,
        alloc: Global,
        session: &mut Session<S, R, L>,
    )
        requires { IsResting session.old };
}

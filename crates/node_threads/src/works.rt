// What a program does while its service runs.

ghost use Rattle.std.specs.Prelude.{◌≡◌};
ghost use Rattle.lock_session.specs.Sessions.{IsResting};

use event_recorders::SharedRecorder;
use lock_session::{OwnRecord, Session};
use lossy_link::Link;
use std::alloc::Global;
use std::sync::Wait;

/// What a program does while its service runs: with the session of each client, in a thread of its own.
///
/// The type of a session names the service's book, which a program can't name; so the program hands in a value
/// of a type of its own, whose method is generic over the session, and no closure. The threads are the service's,
/// since a method can't send to a thread what the bounds of its own parameters are about.
pub trait Work {
    /// Works with the session of a client, which has risen and rests. `Session::client` tells whose it is. The session
    /// stays where it is: it isn't taken for another one's.
    ///
    /// When it returns, the service says at once what the session has left to say, so nobody waits for a guard that
    /// was dropped; and takes it apart when all have returned.
    fn work<W: Wait, S: OwnRecord, R: SharedRecorder, L: Link>(
        &self,
        rt: &W,
        alloc: Global,
        session: &mut Session<S, R, L>,
    )
        requires { IsResting session.old }
        ensures { session.new.client ≡ session.old.client };
}

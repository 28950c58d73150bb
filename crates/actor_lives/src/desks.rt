// Where a client's commands come from, and where its answers go.

ghost use Rattle.std.specs.Prelude.{◌≡◌};
ghost use Rattle.lock_messages.specs.declared.tickets.Mode.TheVariants.{Read};
ghost use Rattle.client_core.specs.Clients.{phase_of};
ghost use Rattle.client_core.specs.declared.phases.Phase.TheVariants as phase;
ghost use Rattle.client_loop.specs.Visits.{AsksFor};
ghost use Rattle.lock_session.specs.Guards.{IsHeld, guard_ticket};
ghost use Rattle.actor_lives.specs.Serving.{use_in};

use client_commands::{Command, Entry, Waiting};
use event_recorders::Recorder;
use lock_session::{OwnRecord, Session, SessionGuard};
use lossy_link::Link;
use std::sync::Wait;

/// What a desk brings.
#[derive(Clone, Copy, Debug, PartialEq, Eq)]
pub enum Asked {
    /// A command.
    Command(Command),
    /// A line that is no command.
    Unknown,
    /// No command has come for a moment.
    Nothing,
    /// No more commands come, or nobody reads the answers.
    Ended,
}

/// Why a client did not get the lock that it asked for.
#[derive(Clone, Copy, Debug, PartialEq, Eq)]
pub enum Refusal {
    /// A node queued the request, and the client took it back.
    Busy,
    /// The client waited for as long as it was told, and took back what it asked for.
    Late,
    /// The number of a fault.
    Fault(u16),
}

/// Brings commands and takes answers, and knows how long the client is to wait.
///
/// An answer that says that the client is inside, or a reader now, is given with a guard, so it is true while the guard
/// lives. The guard is for the lock that the command asked for. An answer that the client is outside, or that it did not
/// get the lock, is given with a session that is outside.
pub trait Desk {
    /// The next command. If it isn't to wait it brings `Nothing` when none has come for a moment.
    fn next<W: Wait>(&mut self, rt: &W, waits: bool) -> Asked;

    /// A command asks for a lock. The client waits from now on, for as long as this says, or until the commands end.
    fn begin_wait(&mut self, waiting: Waiting);

    /// An attempt begins. It gives up when the command's time is over, and after a moment if it is short.
    fn begin_attempt(&mut self, is_short: bool);

    /// The client waits for answers to its releases from now on: for a moment, or longer if these are the first or the last.
    fn begin_release(&mut self, is_long: bool);

    /// The client waits for nothing.
    fn end_wait(&mut self);

    /// Whether the command's time is over.
    fn is_over(&self) -> bool;

    /// Waits for a moment.
    fn pause<W: Wait>(&mut self, rt: &W);

    /// Says that the client is inside, as this command asked.
    fn inside<S: OwnRecord, R: Recorder, L: Link>(
        &mut self,
        entry: &Entry,
        guard: &SessionGuard<'_, S, R, L>,
    )
        requires held { IsHeld guard.now }
        requires asked { AsksFor (use_in entry.now) (guard_ticket guard.now) };

    /// Says that the client goes on as a reader.
    fn softened<S: OwnRecord, R: Recorder, L: Link>(&mut self, guard: &SessionGuard<'_, S, R, L>)
        requires held { IsHeld guard.now }
        requires reads { (guard_ticket guard.now).mode ≡ Read };

    /// Says that the client is outside.
    fn outside<S: OwnRecord, R: Recorder, L: Link>(&mut self, session: &Session<S, R, L>)
        requires { phase_of session.now.core ≡ phase.Inside → ⊥ };

    /// Says that the client did not get the lock.
    fn refused<S: OwnRecord, R: Recorder, L: Link>(
        &mut self,
        refusal: Refusal,
        session: &Session<S, R, L>,
    )
        requires { phase_of session.now.core ≡ phase.Inside → ⊥ };

    /// Says what the session holds.
    fn status<S: OwnRecord, R: Recorder, L: Link>(&mut self, session: &Session<S, R, L>);

    /// Says that the line is no command, or no command for now.
    fn unknown(&mut self);
}

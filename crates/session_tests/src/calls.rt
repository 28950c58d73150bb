// Calls of a session and of its guards, one after the other, and what each answers.

use crate::rows::Row;
use event_recorders::{Recorder, RunFault};
use lock_messages::Mode;
use lock_session::{Crowd, OwnRecord, Session, SessionGuard, TryFault};
use lossy_link::Link;
use std::alloc::Global;
use std::mem::drop;
use std::sync::Wait;
use test_outcomes::{Failure, Outcome, check_row};
use test_support::resource;

/// A resource: `a`, `b`, or one of the longest name.
#[derive(Clone, Copy)]
pub(crate) enum Name {
    A,
    B,
    Longest,
}

impl Name {
    fn bytes(self) -> &'static [u8] {
        match self {
            Name::A => b"a",
            Name::B => b"b",
            Name::Longest => b"abcdefghijklmnopqrstuvwxyz-01234",
        }
    }
}

/// How a session asks for a use.
#[derive(Clone, Copy)]
pub(crate) enum How {
    /// One node after another, and it waits.
    InTurn,
    /// Several nodes at once, and it does not wait.
    AtOnce,
    /// Several nodes at once and then, if it has to wait, one after another.
    Soon,
}

/// A use that is asked for: how, the mode, the resource, and the number of the nudge at which it gives up.
#[derive(Clone, Copy)]
pub(crate) struct Asked {
    pub(crate) how: How,
    pub(crate) mode: Mode,
    pub(crate) name: Name,
    pub(crate) nudges: u32,
}

/// A call of a session, or of the guard that it gave last.
#[derive(Clone, Copy)]
pub(crate) enum Call {
    /// Enters.
    Enter(Asked),
    Settle,
    /// Softens, and has a ticket of this mode then.
    Soften(Mode),
    Leave,
    /// The guard is dropped.
    Drop,
}

/// Enough nudges, and `a` to read.
pub(crate) const ASKED: Asked = Asked {
    how: How::InTurn,
    mode: Mode::Read,
    name: Name::A,
    nudges: 1_000,
};

pub(crate) const READ_A: Call = Call::Enter(ASKED);

pub(crate) const WRITE_A: Call = Call::Enter(Asked {
    mode: Mode::Write,
    ..ASKED
});

pub(crate) const READ_B: Call = Call::Enter(Asked {
    name: Name::B,
    ..ASKED
});

pub(crate) const TRY_A: Call = Call::Enter(Asked {
    how: How::AtOnce,
    ..ASKED
});

pub(crate) const TRY_B: Call = Call::Enter(Asked {
    how: How::AtOnce,
    name: Name::B,
    ..ASKED
});

pub(crate) const SOON_A: Call = Call::Enter(Asked {
    how: How::Soon,
    ..ASKED
});

/// What a call is to answer.
#[derive(Clone, Copy)]
pub(crate) enum Says {
    Done,
    /// It would have to wait.
    Busy,
    /// It ends by this fault.
    Ends(RunFault),
    /// The session is over by the row's fault.
    Over,
}

/// Too few nodes are left (912), or it had its last nudge (913): the session goes on.
pub(crate) const TOO_FEW: Says = Says::Ends(RunFault::TooFewNodes);

pub(crate) const GAVE_UP: Says = Says::Ends(RunFault::GaveUp);

/// The record was not reopened (911), or memory was refused (914): the session is over.
pub(crate) const NOT_REOPENED: Says = Says::Ends(RunFault::NotReopened);

pub(crate) const NO_MEMORY: Says = Says::Ends(RunFault::Memory);

/// What a call answers.
pub(crate) type Answer = Result<(), TryFault>;

/// The answer of a call that was refused memory.
const REFUSED: Answer = Err(TryFault::Ended(RunFault::Memory));

/// A fault as a call answers it.
fn told(answer: Result<(), RunFault>) -> Answer {
    match answer {
        Ok(()) => Ok(()),
        Err(fault) => Err(TryFault::Ended(fault)),
    }
}

/// Ends the test unless a call answered what is expected; else the place behind it. Where memory was refused and no
/// fault by that is expected, the test ends by it.
fn expect(answer: Answer, expected: Answer, at: usize) -> Result<usize, Failure> {
    if answer == expected {
        Ok(at.saturating_add(1))
    } else if answer == REFUSED {
        Err(Failure::Memory)
    } else {
        Err(Failure::Wrong(at))
    }
}

/// By which fault a session is over once a call has answered so.
fn over_by(answer: Answer) -> Option<RunFault> {
    match answer {
        Err(TryFault::Ended(RunFault::TooFewNodes | RunFault::GaveUp)) => None,
        Err(TryFault::Ended(fault)) => Some(fault),
        Ok(()) | Err(TryFault::Busy) => None,
    }
}

/// Softens, where the guard may, and looks at its ticket, and at whether the session is over.
fn soften<S: OwnRecord, R: Recorder, L: Link>(
    alloc: Global,
    guard: &mut SessionGuard<'_, S, R, L>,
    mode: Mode,
    expected: Answer,
    at: usize,
) -> Outcome {
    if guard.ticket().mode != Mode::Write {
        return Err(Failure::Wrong(at));
    }
    expect(told(guard.soften(alloc)), expected, at)?;
    let is_over = guard.session().ended() == over_by(expected);
    check_row(is_over && guard.ticket().mode == mode, at)
}

/// Makes the softenings among the calls of a guard, which stand at its head; the place behind them.
fn soften_all<S: OwnRecord, R: Recorder, L: Link>(
    alloc: Global,
    guard: &mut SessionGuard<'_, S, R, L>,
    row: &Row<'_>,
    from: Result<usize, Failure>,
) -> Result<usize, Failure> {
    for at in from?..row.calls.len() {
        let Some((Call::Soften(mode), expected)) = row.call(at) else {
            return Ok(at);
        };
        soften(alloc, guard, mode, expected, at)?;
    }
    Ok(row.calls.len())
}

/// Whether a row's call at a place is that a guard leaves.
fn leaves_at(row: &Row<'_>, at: Result<usize, Failure>) -> bool {
    match at {
        Ok(at) => matches!(row.call(at), Some((Call::Leave, _))),
        Err(_) => false,
    }
}

/// Ends the test unless the last call of a guard, if there is one, answered what is expected; the place behind it.
fn is_spent(row: &Row<'_>, at: usize, answer: Answer) -> Result<usize, Failure> {
    match row.call(at) {
        Some((Call::Leave, expected)) => expect(answer, expected, at),
        Some((Call::Drop, _)) => Ok(at.saturating_add(1)),
        Some(_) => Err(Failure::Wrong(at)),
        None => Ok(at),
    }
}

/// The guard leaves, if that is the row's call at a place, and else is dropped; what that answers.
fn spend<W: Wait, S: OwnRecord, R: Recorder, L: Link>(
    rt: &W,
    alloc: Global,
    guard: SessionGuard<'_, S, R, L>,
    row: &Row<'_>,
    at: Result<usize, Failure>,
) -> Answer {
    if leaves_at(row, at) {
        told(guard.leave(rt, alloc))
    } else {
        drop(guard);
        Ok(())
    }
}

/// Enters, at a place of the calls, and makes those of the guard; the place behind them.
fn enter<W: Wait, S: OwnRecord, R: Recorder, L: Link>(
    rt: &W,
    alloc: Global,
    session: &mut Session<S, R, L>,
    asked: Asked,
    row: &Row<'_>,
    at: usize,
    expected: Answer,
) -> Result<usize, Failure> {
    let name = resource(asked.name.bytes())?;
    if session.ballots().count() < 1 {
        return Err(Failure::Wrong(at));
    }
    match session.enter(rt, alloc, asked.mode, name, 1, asked.nudges) {
        Ok(guard) => {
            let mut guard = guard;
            let next = soften_all(alloc, &mut guard, row, expect(Ok(()), expected, at));
            let answer = spend(rt, alloc, guard, row, next);
            is_spent(row, next?, answer)
        }
        Err(fault) => expect(Err(TryFault::Ended(fault)), expected, at),
    }
}

/// The same where it needn't wait.
fn try_enter<W: Wait, S: OwnRecord, R: Recorder, L: Link>(
    rt: &W,
    alloc: Global,
    session: &mut Session<S, R, L>,
    asked: Asked,
    row: &Row<'_>,
    at: usize,
    expected: Answer,
) -> Result<usize, Failure> {
    let name = resource(asked.name.bytes())?;
    if session.ballots().count() < 1 {
        return Err(Failure::Wrong(at));
    }
    match session.try_enter(rt, alloc, asked.mode, name, 1, asked.nudges) {
        Ok(guard) => {
            let mut guard = guard;
            let next = soften_all(alloc, &mut guard, row, expect(Ok(()), expected, at));
            let answer = spend(rt, alloc, guard, row, next);
            is_spent(row, next?, answer)
        }
        Err(fault) => expect(Err(fault), expected, at),
    }
}

/// The same where it asks several nodes at once first. It has noted a crowd just if it did not enter.
fn enter_soon<W: Wait, S: OwnRecord, R: Recorder, L: Link>(
    rt: &W,
    alloc: Global,
    session: &mut Session<S, R, L>,
    asked: Asked,
    row: &Row<'_>,
    at: usize,
    expected: Answer,
) -> Result<usize, Failure> {
    let name = resource(asked.name.bytes())?;
    if session.ballots().count() < 1 {
        return Err(Failure::Wrong(at));
    }
    let mut crowd = Crowd::none();
    match session.enter_soon(rt, alloc, asked.mode, name, 1, asked.nudges, &mut crowd) {
        Ok(guard) => {
            let mut guard = guard;
            check_row(crowd.asks_at_once(), at)?;
            let next = soften_all(alloc, &mut guard, row, expect(Ok(()), expected, at));
            let answer = spend(rt, alloc, guard, row, next);
            is_spent(row, next?, answer)
        }
        Err(fault) => {
            let next = expect(Err(TryFault::Ended(fault)), expected, at)?;
            check_row(!crowd.asks_at_once(), at)?;
            Ok(next)
        }
    }
}

/// Makes the call at a place, and those of the guard that it gives; the place behind them.
fn step<W: Wait, S: OwnRecord, R: Recorder, L: Link>(
    rt: &W,
    alloc: Global,
    session: &mut Session<S, R, L>,
    row: &Row<'_>,
    at: usize,
) -> Result<usize, Failure> {
    match row.call(at) {
        None => Ok(at),
        Some((Call::Enter(asked), expected)) => {
            match asked.how {
                How::InTurn => enter(rt, alloc, session, asked, row, at, expected),
                How::AtOnce => try_enter(rt, alloc, session, asked, row, at, expected),
                How::Soon => enter_soon(rt, alloc, session, asked, row, at, expected),
            }
        }
        Some((Call::Settle, expected)) => expect(told(session.settle(rt, alloc)), expected, at),
        Some((Call::Soften(_) | Call::Leave | Call::Drop, _)) => Err(Failure::Wrong(at)),
    }
}

/// Ends the test unless the session is inside by no ticket, since no guard of it lives, and is over just where the
/// call before this place says so; a dropped guard says nothing.
fn is_over<S: OwnRecord, R: Recorder, L: Link>(
    session: &Session<S, R, L>,
    row: &Row<'_>,
    at: usize,
) -> Outcome {
    let is_right = match row.call(at.saturating_sub(1)) {
        None | Some((Call::Drop, _)) => true,
        Some((_, expected)) => session.ended() == over_by(expected),
    };
    check_row(is_right && session.ticket().is_none(), at)
}

/// What ends a test in which a call was refused memory: just that, where the session is over by it, and answers so
/// again.
fn without_memory<W: Wait, S: OwnRecord, R: Recorder, L: Link>(
    rt: &W,
    alloc: Global,
    session: &mut Session<S, R, L>,
) -> Failure {
    let over = Some(RunFault::Memory);
    let is_over = session.ended() == over;
    if is_over && told(session.settle(rt, alloc)) == REFUSED && session.ended() == over {
        Failure::Memory
    } else {
        Failure::Wrong(105)
    }
}

/// Makes a row's calls, one after the other, and ends the test at the first that answers otherwise than is expected,
/// or after which the session is not over where it is to be.
pub(crate) fn play<W: Wait, S: OwnRecord, R: Recorder, L: Link>(
    rt: &W,
    alloc: Global,
    session: &mut Session<S, R, L>,
    row: &Row<'_>,
) -> Outcome {
    let mut at = 0;
    for _ in 0..row.calls.len() {
        match step(rt, alloc, session, row, at) {
            Ok(next) => at = next,
            Err(Failure::Memory) => return Err(without_memory(rt, alloc, session)),
            Err(failure) => return Err(failure),
        }
        is_over(session, row, at)?;
    }
    Ok(())
}

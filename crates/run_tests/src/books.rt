//! The audit of a book in which one client has logged: by the settings that opened it, and by others.

ghost use Rattle.std.specs.Prelude.{◌≡◌, ◌≤◌, true, IfOk};
ghost use Rattle.lock_messages.specs.declared.ids.TheConstants.{MAX_CLIENTS};
ghost use Rattle.book_recorders.specs.Alone.{IsAlone};

use book_recorders::{Logs, OwnBookRecorder, open_alone};
use book_support::of_book;
use event_recorders::Recorder;
use history_book::{Berth, Book};
use journal_audit::{Cause, Verdict};
use lock_messages::{Actor, ClientId, MAX_CLIENTS};
use lock_model::Problem;
use run_service::{audit_book, plain_policies};
use std::alloc::Global;
use test_outcomes::{Failure, Outcome, check};
use test_support::ballots_of;
use world_model::{Age, Event, StepFault};
use world_settings::{Settings, world_down};

/// Whether a world may have so many clients.
fn are_clients(count: u16) -> bool
    ensures { result ≡ true → (1 ≤ count) × (count ≤ MAX_CLIENTS) }
{
    count >= 1 && u32::from(count) <= MAX_CLIENTS
}

/// Settings of one node and so many clients.
fn settings(clients: u16) -> Result<Settings, Failure>
    ensures { IfOk result (λ s. s.clients ≡ clients) }
{
    Ok(Settings {
        ballots: ballots_of(&[1], 1, 1)?,
        problem: Problem::Second,
        clients,
    })
}

/// Logs an event.
fn log<K: Logs>(recorder: &mut OwnBookRecorder<K>, event: Event) -> Outcome {
    match recorder.log_event(event) {
        Ok(_) => Ok(()),
        Err(fault) => Err(of_book(fault)),
    }
}

/// Lets an actor rise and fall so often.
fn rise_and_fall<K: Logs>(recorder: &mut OwnBookRecorder<K>, who: &Actor, times: u32) -> Outcome {
    for _ in 0..times {
        log(recorder, Event::Rise(*who, Age::Old))?;
        log(recorder, Event::Fall(*who))?;
    }
    Ok(())
}

/// The same in this book, which comes back.
fn log_in<K: Logs>(book: K, berth: Berth, who: &Actor, times: u32) -> (K, Outcome)
    requires { IsAlone (K.book book) berth }
{
    let mut recorder = OwnBookRecorder::over(book, berth);
    let logged = rise_and_fall(&mut recorder, who, times);
    (recorder.into_book(), logged)
}

/// A book that was opened by these settings, in which the last client has risen and fallen so often.
fn book_of(alloc: Global, settings: &Settings, times: u32) -> Result<Book, Failure>
    requires some_client { 1 ≤ settings.now.clients }
    requires few_clients { settings.now.clients ≤ MAX_CLIENTS }
{
    let Some(client) = ClientId::of(u32::from(settings.clients)) else {
        return Err(Failure::Wrong(0));
    };
    let who = Actor::Client(client);
    let Ok(world) = world_down(alloc, settings, plain_policies(alloc)?) else {
        return Err(Failure::Memory);
    };
    let Ok(opened) = open_alone(alloc, world, who) else {
        return Err(Failure::Memory);
    };
    let Some((book, berth)) = opened else {
        return Err(Failure::Wrong(0));
    };
    let (book, logged) = log_in::<Book>(book, berth, &who, times);
    logged?;
    Ok(book)
}

/// Ends the test unless the book of so many clients, of which the last has risen and fallen so often, is found so by
/// settings of this number of clients.
pub(crate) fn is_found(
    alloc: Global,
    opened: u16,
    times: u32,
    audited: u16,
    verdict: Verdict,
) -> Outcome {
    if !are_clients(opened) || !are_clients(audited) {
        return Err(Failure::Wrong(0));
    }
    let book = book_of(alloc, &settings(opened)?, times)?;
    check(audit_book(alloc, &settings(audited)?, &book)? == verdict)
}

#[test]
fn nothing_logged(rt: HostRuntime) -> Outcome {
    is_found(rt.alloc(), 1, 0, 1, Verdict::Sound(0))
}

#[test]
fn the_settings_that_opened_it(rt: HostRuntime) -> Outcome {
    is_found(rt.alloc(), 2, 3, 2, Verdict::Sound(6))
}

#[test]
fn the_most_clients(rt: HostRuntime) -> Outcome {
    is_found(rt.alloc(), 1_024, 1, 1_024, Verdict::Sound(2))
}

/// Settings without the client that has logged: its first event is refused, since there is no such actor.
#[test]
fn other_settings(rt: HostRuntime) -> Outcome {
    let verdict = Verdict::Unsound(1, Cause::Refused(StepFault::UnknownActor));
    is_found(rt.alloc(), 2, 3, 1, verdict)
}

// What is said of a merge on the second writer.

ghost use Rattle.std.specs.Prelude.{◌≡◌};
ghost use Rattle.merge_service.specs.Merging.{failure_status, merge_status, sort_of};

use crate::ends::{failure_status, merge_status};
use crate::{MergeEnd, MergeFault};
use event_lines::write_event;
use journal_merger::{Failure, Journals, JournalsFault, LineLeft};
use line_merger::Refusal;
use lock_messages::Actor;
use own_journals::OwnLine;
use program_ends::{Ended, tell_fault};
use std::alloc::Global;
use std::io::{Read, Write};
use world_model::StepFault;

/// Why a line is left, the most telling reason first.
#[derive(Clone, Copy, PartialEq, Eq)]
enum Sort {
    /// The settings have no such actor.
    Actor,
    /// Nobody said what it reads.
    Unsaid,
    /// Its actor refuses the event.
    Event,
    /// The record is neither the kept nor the tried one.
    Record,
}

/// Why this line is left. A life that is refused has another record, unless the settings have no such actor.
fn sort_of(left: &LineLeft<'_>) -> Sort
    ensures { result ≡ sort_of left.now.refusal left.now.line.now }
{
    match (left.refusal, left.line) {
        (None, _) => Sort::Unsaid,
        (Some(Refusal::OtherRecord), _) => Sort::Record,
        (Some(Refusal::Step(StepFault::UnknownActor)), _) => Sort::Actor,
        (Some(Refusal::Step(_)), OwnLine::Life(_, _)) => Sort::Record,
        (Some(Refusal::Step(_)), _) => Sort::Event,
        (Some(Refusal::OtherActor), _) => Sort::Event,
    }
}

/// Says why the actor refuses the event.
fn say_refusal<E: Write>(left: &LineLeft<'_>, errors: &mut E) -> bool {
    match left.refusal {
        Some(Refusal::Step(fault)) => {
            let number = fault.number();
            writeln!(errors, "refused {number}").is_ok()
        }
        _ => writeln!(errors, "a line of another actor").is_ok(),
    }
}

/// Says a reason.
fn say_why<E: Write>(left: &LineLeft<'_>, errors: &mut E) -> bool {
    match sort_of(left) {
        Sort::Actor => {
            writeln!(
                errors,
                "refused 601: the settings have no such node or client"
            )
            .is_ok()
        }
        Sort::Unsaid => writeln!(errors, "nobody said this message").is_ok(),
        Sort::Record => writeln!(errors, "neither the kept record nor the tried one").is_ok(),
        Sort::Event => say_refusal(left, errors),
    }
}

/// Says that the actor reads a message with this frame.
fn say_frame<E: Write>(alloc: Global, who: &Actor, frame: &[u8], errors: &mut E) -> bool {
    let word = match who {
        Actor::Node(_) => "take",
        Actor::Client(_) => "hear",
    };
    match hex::encode(alloc, frame) {
        Ok(digits) => write!(errors, "{word} {who} {digits}").is_ok(),
        Err(_) => write!(errors, "{word} {who}").is_ok(),
    }
}

/// Says what a line says. Of a life the record is left out, since it may be long.
fn say_line<E: Write>(alloc: Global, line: &OwnLine, errors: &mut E) -> bool {
    match line {
        OwnLine::Life(who, _) => write!(errors, "life {who}").is_ok(),
        OwnLine::Reads(who, frame) => say_frame(alloc, who, frame, errors),
        OwnLine::Does(event) => match write_event(alloc, event) {
            Ok(text) => write!(errors, "{text}").is_ok(),
            Err(_) => write!(errors, "an event").is_ok(),
        },
    }
}

/// Says which line of the journal of this name is left, and why.
fn say_left<E: Write>(alloc: Global, name: &str, left: &LineLeft<'_>, errors: &mut E) -> bool {
    let number = left.number;
    write!(errors, "{name} line {number} ").is_ok()
        && say_line(alloc, left.line, errors)
        && write!(errors, ": ").is_ok()
        && say_why(left, errors)
}

/// Says which lines are left for this reason.
fn say_sort<J: Read, E: Write>(
    alloc: Global,
    names: &[String],
    journals: &Journals<J>,
    sort: Sort,
    errors: &mut E,
) -> bool {
    let mut said = true;
    for (index, name) in names.iter().enumerate() {
        if let Some(left) = journals.next_line(index) {
            if sort_of(&left) == sort {
                said = say_left(alloc, name.as_str(), &left, errors) && said;
            }
        }
    }
    said
}

/// Says which lines are left, and why, the most telling reason first.
fn say_stuck<J: Read, E: Write>(
    alloc: Global,
    names: &[String],
    journals: &Journals<J>,
    errors: &mut E,
) -> bool {
    let actor = say_sort(alloc, names, journals, Sort::Actor, errors);
    let unsaid = say_sort(alloc, names, journals, Sort::Unsaid, errors);
    let event = say_sort(alloc, names, journals, Sort::Event, errors);
    let record = say_sort(alloc, names, journals, Sort::Record, errors);
    actor && unsaid && event && record
}

/// Says a fault of a journal, or of a line of it.
fn say_failure<E: Write>(names: &[String], line: u64, failure: Failure, errors: &mut E) -> bool {
    let number = failure.fault.number();
    let Some(name) = names.get(failure.journal) else {
        return writeln!(errors, "fault {number}").is_ok();
    };
    match failure.fault {
        JournalsFault::NoLine | JournalsFault::OtherActor => {
            writeln!(errors, "{name} line {line} fault {number}").is_ok()
        }
        JournalsFault::NoActor | JournalsFault::SameActor | JournalsFault::Read => {
            writeln!(errors, "{name} fault {number}").is_ok()
        }
        JournalsFault::Full
        | JournalsFault::Write
        | JournalsFault::Memory
        | JournalsFault::TooManyLines => writeln!(errors, "fault {number}").is_ok(),
    }
}

/// Ends a program that met a fault of a journal, at the line of this number if it has one.
pub(crate) fn tell_failure<E: Write>(
    names: &[String],
    line: u64,
    failure: Failure,
    errors: &mut E,
) -> Ended
    ensures { result.status ≡ failure_status failure.fault }
{
    Ended {
        status: failure_status(failure.fault),
        told: say_failure(names, line, failure, errors),
    }
}

/// The number of the line after the one that was read last.
fn line_after<J: Read>(journals: &Journals<J>, index: usize) -> u64 {
    match journals.next_line(index) {
        Some(left) => left.number.saturating_add(1),
        None => 1,
    }
}

/// Ends a program in which this came of a merge.
pub(crate) fn tell_end<J: Read, E: Write>(
    alloc: Global,
    names: &[String],
    journals: &Journals<J>,
    came: Result<MergeEnd, MergeFault>,
    errors: &mut E,
) -> Ended
    ensures { result.status ≡ merge_status came }
{
    let status = merge_status(came);
    let told = match came {
        Ok(MergeEnd::Merged) => true,
        Ok(MergeEnd::Refused) => true,
        Ok(MergeEnd::Stuck) => say_stuck(alloc, names, journals, errors),
        Err(MergeFault::Serve(fault)) => tell_fault(fault, errors).told,
        Err(MergeFault::Journals(failure)) => {
            let line = line_after(journals, failure.journal);
            say_failure(names, line, failure, errors)
        }
    };
    Ended { status, told }
}

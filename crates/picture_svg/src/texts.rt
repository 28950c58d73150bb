// What is said of marks.

use crate::shapes::heard_word;
use event_lines::write_event;
use fault_numbers::meaning_of;
use lock_messages::{Actor, Message, Mode};
use lock_model::Problem;
use run_picture::{Lasting, Mark, Place, Sign};
use std::alloc::{AllocError, Global};
use world_model::{Age, Effect, Event};

/// Whether another record is to be kept than before.
fn changed_word(changed: bool) -> &'static str {
    if changed { "changed" } else { "same" }
}

/// Adds the numbers of messages that were said.
fn push_numbers(text: &mut String, first: u32, count: u32) -> Result<(), AllocError> {
    match count {
        0 => text.push_str("nothing"),
        1 => write!(text, "{first}"),
        _ => {
            let last = first.saturating_add(count).saturating_sub(1);
            write!(text, "{first}-{last}")
        }
    }
}

/// Adds the few letters that stand beside an event's mark.
pub(crate) fn push_label(
    text: &mut String,
    event: &Event,
    effect: &Effect,
) -> Result<(), AllocError> {
    match *effect {
        Effect::Sent(number, _) => write!(text, "{number}"),
        Effect::Said { first, count } => push_numbers(text, first, count),
        Effect::Took(_, changed) => text.push_str(changed_word(changed)),
        Effect::Heard(_, heard) => text.push_str(heard_word(heard)),
        Effect::Inside => text.push_str("inside"),
        Effect::Outside => text.push_str("outside"),
        Effect::Softened => text.push_str("softened"),
        Effect::Down => text.push_str("down"),
        Effect::Up => text.push_str("up"),
        Effect::Switched(_) => push_problem(text, event),
        Effect::Chose(_) => push_mode(text, event),
        Effect::Tried | Effect::Kept => Ok(()),
    }
}

/// Adds the mode that an attempt begins in.
fn push_mode(text: &mut String, event: &Event) -> Result<(), AllocError> {
    match event {
        Event::Begin(_, Mode::Read, _, _) => text.push_str("read"),
        Event::Begin(_, Mode::Write, _, _) => text.push_str("write"),
        _ => Ok(()),
    }
}

/// Adds the problem that a node takes.
fn push_problem(text: &mut String, event: &Event) -> Result<(), AllocError> {
    match event {
        Event::Switch(_, Problem::First) => text.push_str("to 1"),
        Event::Switch(_, Problem::Second) => text.push_str("to 2"),
        _ => Ok(()),
    }
}

/// Adds what an event did.
fn push_effect(text: &mut String, effect: &Effect) -> Result<(), AllocError> {
    match *effect {
        Effect::Chose(attempt) => write!(text, "chose attempt {attempt}"),
        Effect::Tried => text.push_str("tries to keep it"),
        Effect::Kept => text.push_str("has kept it"),
        Effect::Sent(number, message) => write!(text, "said message {number}, {message}"),
        Effect::Said { first, count } => {
            text.push_str("said ")?;
            push_numbers(text, first, count)
        }
        Effect::Took(message, changed) => {
            let word = changed_word(changed);
            write!(text, "{word} by {message}")
        }
        Effect::Heard(message, heard) => {
            let word = heard_word(heard);
            write!(text, "{word}, {message}")
        }
        Effect::Inside => text.push_str("inside"),
        Effect::Outside => text.push_str("outside"),
        Effect::Softened => text.push_str("a reader from now on"),
        Effect::Down => text.push_str("down"),
        Effect::Up => text.push_str("up"),
        Effect::Switched(changed) => text.push_str(changed_word(changed)),
    }
}

/// Adds where something lasted that ended.
fn push_stretch(text: &mut String, from: &Place, upto: &Place) -> Result<(), AllocError> {
    let (first, last) = (from.line, upto.line);
    match first {
        0 => write!(text, ", from the beginning to line {last}"),
        _ => write!(text, ", from line {first} to {last}"),
    }
}

/// Adds since when something lasts.
fn push_since(text: &mut String, from: &Place) -> Result<(), AllocError> {
    let first = from.line;
    match first {
        0 => text.push_str(", from the beginning to the end"),
        _ => write!(text, ", from line {first} to the end"),
    }
}

/// Adds what lasts.
fn push_lasting(text: &mut String, what: &Lasting) -> Result<(), AllocError> {
    match *what {
        Lasting::Down(who) => write!(text, "{who} is down"),
        Lasting::Inside(ticket) => write!(text, "inside: {ticket}"),
        Lasting::Holding(node, ticket) => write!(text, "{node} has given its vote: {ticket}"),
    }
}

/// Whether the message goes to a node.
fn is_taken(message: &Message) -> bool {
    match message {
        Message::Request(..) | Message::Release(..) | Message::Soften(..) => true,
        Message::Grant(..) | Message::Busy(..) | Message::Over(..) => false,
        Message::Done(..) | Message::Muddled(..) | Message::Softened(..) => false,
    }
}

/// What is done with a message.
fn coming_word(message: &Message) -> &'static str {
    if is_taken(message) { "taken" } else { "heard" }
}

/// Adds the text of an event's line.
pub(crate) fn push_event(
    alloc: Global,
    text: &mut String,
    event: &Event,
) -> Result<(), AllocError> {
    let line = write_event(alloc, event)?;
    text.push_str(line.as_str())
}

/// Adds a mark's title.
pub(crate) fn push_title(alloc: Global, text: &mut String, mark: &Mark) -> Result<(), AllocError> {
    let (from, upto) = (mark.from.line, mark.upto.line);
    match &mark.sign {
        Sign::Event(event, effect) => {
            write!(text, "line {from}: ")?;
            push_event(alloc, text, event)?;
            text.push_str(": ")?;
            push_effect(text, effect)
        }
        Sign::Message(number, message) => {
            let word = coming_word(message);
            write!(
                text,
                "message {number}, {message}: said at line {from}, {word} at line {upto}"
            )
        }
        Sign::Lost(number, message) => {
            let word = coming_word(message);
            write!(
                text,
                "message {number}, {message}: said at line {from}, never {word}"
            )
        }
        Sign::Ended(what) => {
            push_lasting(text, what)?;
            push_stretch(text, &mark.from, &mark.upto)
        }
        Sign::Open(what) => {
            push_lasting(text, what)?;
            push_since(text, &mark.from)
        }
        Sign::NoEvent(fault) => {
            let number = fault.number();
            let meaning = meaning_of(number);
            write!(text, "line {from} cannot follow: fault {number}, {meaning}")
        }
        Sign::Refused(fault) => {
            let number = fault.number();
            let meaning = meaning_of(number);
            write!(
                text,
                "line {from} cannot follow: refused {number}, {meaning}"
            )
        }
    }
}

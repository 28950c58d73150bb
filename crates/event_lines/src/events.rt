// The lines of a journal: events alone.

ghost use Rattle.std.specs.Prelude.{◌≡◌, IfOk, string_bytes};
ghost use Rattle.event_lines.specs.Events.{event_of, event_text};

use crate::LineFault;
use crate::commands::Command;
use crate::lines::{Line, push_event, read_line};
use std::alloc::{AllocError, Global};
use world_model::Event;

/// The commands of events.
const EVENTS: [Command; 13] = [
    Command::Begin,
    Command::Try,
    Command::Kept,
    Command::SayTo,
    Command::Say,
    Command::Take,
    Command::Hear,
    Command::Enter,
    Command::Leave,
    Command::Soften,
    Command::Fall,
    Command::Rise,
    Command::Switch,
];

/// Which event a line of a journal is, given without its line feed. It takes no memory.
///
/// # Errors
///
/// What is wrong with the line, as `read_line` judges it where the commands of events are read: a line
/// over `MAX_LINE_LEN` bytes is `Words` (805); else the first that applies, where the first word names
/// no event (`Word`, 801), words are missing or left over (`Words`, 805), and then from the left what is
/// wrong with an argument (801 to 804). An empty line is `Word`. A `begin` has three or four arguments: the
/// place of its ballot stands last, and is left out where it is 1.
#[tactic(auto, unfolding(crate::specs::Events::event_of))]
pub fn read_event(line: &[u8]) -> Result<Event, LineFault>
    ensures { result ≡ event_of line.now }
{
    // A match in place of ?: the checker can't build its plan for ? on a result that holds a line or an event.
    match read_line(&EVENTS, line) {
        Ok(Line::Event(event)) => Ok(event),
        // Where these commands are read no line is a query.
        Ok(Line::Query(_)) => Err(LineFault::Word),
        Err(fault) => Err(fault),
    }
}

/// The one text of an event, without a line feed.
///
/// # Errors
///
/// Memory was refused.
pub fn write_event(alloc: Global, event: &Event) -> Result<String, AllocError>
    ensures { IfOk result (λ s. string_bytes s ≡ event_text event.now) }
{
    let mut text = String::new(alloc);
    push_event(&mut text, event)?;
    Ok(text)
}

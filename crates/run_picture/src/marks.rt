// What a picture is made of, as plain values.

ghost use Rattle.std.specs.Prelude.{◌≡◌, ◌++◌, ◌∷◌, [], OnOk};
ghost use Rattle.std.specs.Option.{option_to_list};

use event_lines::LineFault;
use lock_messages::{Actor, Message, NodeId, ResourceName, Ticket};
use std::alloc::AllocError;
use world_model::{Effect, Event, StepFault};

/// Which part of a history is drawn: the lines from the first to the last, both of them too, and of
/// these those that concern the resource, if one is named.
#[derive(Clone, Copy, Debug)]
pub struct Part {
    pub first: u32,
    pub last: u32,
    pub resource: Option<ResourceName>,
}

/// Where a line of a journal stands in a picture.
#[derive(Clone, Copy, Debug, PartialEq, Eq)]
pub struct Place {
    /// The line, from 1 on; 0 is before all of them.
    pub line: u32,
    /// Twice the number of lines that are drawn before it, and one more where it is drawn itself. So it
    /// grows downwards, is odd in the middle of a drawn line, and even between two.
    pub height: u32,
}

/// What may last over many lines.
#[derive(Clone, Copy, Debug)]
pub enum Lasting {
    /// The actor is down.
    Down(Actor),
    /// The ticket's client is inside the ticket's resource.
    Inside(Ticket),
    /// The ticket holds the node's vote, by what the node has kept.
    Holding(NodeId, Ticket),
}

/// One step of a history.
#[derive(Debug, Drop)]
pub struct Step {
    /// Its line, from 1 on.
    pub line: u32,
    pub event: Event,
    pub effect: Effect,
    /// The messages that were said in it, in the order of their numbers.
    pub said: Vec<Message>,
    /// What lasts of the event's actor once it has happened. It is looked at where the event may change it:
    /// at `Kept` of a node, `Enter`, `Leave`, `Soften`, `Fall` and `Rise`.
    pub lasting: Vec<Lasting>,
}

/// What a mark says.
#[derive(Clone, Copy, Debug)]
pub enum Sign {
    /// This happened, with this effect.
    Event(Event, Effect),
    /// The message of this number was said, and then taken or heard.
    Message(u32, Message),
    /// The message of this number was said, and never taken or heard.
    Lost(u32, Message),
    /// This lasted, and then ended.
    Ended(Lasting),
    /// This lasts up to the end.
    Open(Lasting),
    /// The line is no event, so the history ends before it.
    NoEvent(LineFault),
    /// The line is an event that is refused, so the history ends before it.
    Refused(StepFault),
}

/// A mark: what it says, and from where to where it reaches. One of a single line has the same place twice.
#[derive(Clone, Copy, Debug)]
pub struct Mark {
    pub sign: Sign,
    pub from: Place,
    pub upto: Place,
}

/// Adds a mark.
fn add(marks: &mut Vec<Mark>, mark: &Mark) -> Result<(), AllocError>
    ensures { OnOk result (marks.new.items ≡ marks.old.items ++ mark.now ∷ []) }
{
    marks.extend_from_slice(&[*mark])
}

/// Adds a mark, if there is one.
pub(crate) fn put(marks: &mut Vec<Mark>, mark: Option<Mark>) -> Result<(), AllocError>
    ensures { OnOk result (marks.new.items ≡ marks.old.items ++ option_to_list mark) }
{
    match &mark {
        Some(mark) => add(marks, mark),
        None => Ok(()),
    }
}

// The spelling of a picture: its head, its marks one after another, and its end.

use crate::escaping::push_escaped;
use crate::frames::{BELOW, Frame, GUTTER, HALF_ROW, LANE, LINE_ROOM, TOP, depth};
use crate::legends::{LEGEND, push_columns};
use crate::shapes::{SHAPES, arrow_class, bar_class, shape};
use crate::texts::{push_event, push_label, push_title};
use lock_messages::{Actor, Message};
use run_picture::{Lasting, Mark, Part, Place, Sign};
use std::alloc::{AllocError, Global};
use world_model::{Effect, Event};

/// Adds a mark's title, as an element.
fn push_title_of(alloc: Global, out: &mut String, mark: &Mark) -> Result<(), AllocError> {
    let mut title = String::new(alloc);
    push_title(alloc, &mut title, mark)?;
    out.push_str("<title>")?;
    push_escaped(out, title.as_bytes())?;
    out.push_str("</title>")
}

/// Who says a message, and who takes or hears it.
fn ends_of(message: &Message) -> (Actor, Actor) {
    match *message {
        Message::Request(node, ticket) => (Actor::Client(ticket.client), Actor::Node(node)),
        Message::Grant(node, ticket) | Message::Busy(node, ticket) => {
            (Actor::Node(node), Actor::Client(ticket.client))
        }
        Message::Release(node, client, _) | Message::Soften(node, client, _) => {
            (Actor::Client(client), Actor::Node(node))
        }
        Message::Over(node, client, _)
        | Message::Done(node, client, _)
        | Message::Muddled(node, client, _)
        | Message::Softened(node, client, _) => (Actor::Node(node), Actor::Client(client)),
    }
}

/// Adds a line's text, or what there is room for of it.
fn push_front(out: &mut String, text: &[u8]) -> Result<(), AllocError> {
    if text.len() <= LINE_ROOM {
        return push_escaped(out, text);
    }
    let (front, _) = text.split_at(LINE_ROOM);
    push_escaped(out, front)?;
    out.push_str("..")
}

/// Adds the text of a line, left of all columns, and a thin line from there on.
fn push_row(
    alloc: Global,
    out: &mut String,
    frame: &Frame,
    at: &Place,
    event: &Event,
) -> Result<(), AllocError> {
    let (line, y, right) = (at.line, depth(at), frame.width());
    let base = y + 4;
    let mut text = String::new(alloc);
    push_event(alloc, &mut text, event)?;
    write!(out, "<path class='l' d='M{GUTTER} {y}H{right}'/>")?;
    write!(
        out,
        "<text class='n' x='54' y='{base}'>{line}</text><text x='62' y='{base}'>"
    )?;
    push_front(out, text.as_bytes())?;
    out.push_str("</text>")
}

/// Where the letters beside a mark stand, and their class: on the side that no arrow comes to.
fn label_of(who: &Actor, axis: u64) -> (u64, &'static str) {
    match who {
        Actor::Node(_) => (axis.saturating_sub(10), "e"),
        Actor::Client(_) => (axis.saturating_add(10), "t"),
    }
}

/// Adds an event: its line's text, and its mark with a few letters beside it.
fn push_happened(
    alloc: Global,
    out: &mut String,
    frame: &Frame,
    mark: &Mark,
    event: &Event,
    effect: &Effect,
) -> Result<(), AllocError> {
    let at = &mark.from;
    push_row(alloc, out, frame, at, event)?;
    let who = event.actor();
    let (x, y) = (frame.axis(&who), depth(at));
    let (name, base) = (shape(event, effect), y + 4);
    let (beside, class) = label_of(&who, x);
    let mut label = String::new(alloc);
    push_label(&mut label, event, effect)?;
    out.push_str("<g>")?;
    push_title_of(alloc, out, mark)?;
    write!(
        out,
        "<use href='#{name}' x='{x}' y='{y}'/><text class='{class}' x='{beside}' y='{base}'>"
    )?;
    push_escaped(out, label.as_bytes())?;
    out.push_str("</text></g>\n")
}

/// Where an arrow touches two columns: from the first one's side that faces the other, to the other's.
fn sides(from: u64, upto: u64) -> (u64, u64) {
    if from < upto {
        return (from.saturating_add(4), upto.saturating_sub(5));
    }
    (from.saturating_sub(4), upto.saturating_add(5))
}

/// Adds the arrow of a message.
fn push_arrow(
    alloc: Global,
    out: &mut String,
    frame: &Frame,
    mark: &Mark,
    message: &Message,
) -> Result<(), AllocError> {
    let (says, takes) = ends_of(message);
    let (x1, x2) = sides(frame.axis(&says), frame.axis(&takes));
    let (y1, y2) = (depth(&mark.from), depth(&mark.upto));
    let (class, head) = arrow_class(message);
    write!(
        out,
        "<path class='m {class}' marker-end='url(#{head})' d='M{x1} {y1}L{x2} {y2}'>"
    )?;
    push_title_of(alloc, out, mark)?;
    out.push_str("</path>\n")
}

/// Adds the short arrow of a message that was lost, which ends in a cross.
fn push_lost(
    alloc: Global,
    out: &mut String,
    frame: &Frame,
    mark: &Mark,
    message: &Message,
) -> Result<(), AllocError> {
    let (says, takes) = ends_of(message);
    let (from, upto) = (frame.axis(&says), frame.axis(&takes));
    let (x1, _) = sides(from, upto);
    let x2 = if from < upto {
        x1.saturating_add(34)
    } else {
        x1.saturating_sub(34)
    };
    let y1 = depth(&mark.from);
    let y2 = y1 + HALF_ROW;
    let (class, _) = arrow_class(message);
    out.push_str("<g>")?;
    push_title_of(alloc, out, mark)?;
    write!(out, "<path class='m {class}' d='M{x1} {y1}L{x2} {y2}'/>")?;
    writeln!(out, "<use href='#lo' x='{x2}' y='{y2}'/></g>")
}

/// Where a bar begins from the left, and how wide it is.
fn bar_of(frame: &Frame, what: &Lasting) -> (u64, u64) {
    match what {
        Lasting::Down(who) => (frame.left(who), frame.column_width(who)),
        Lasting::Inside(ticket) => {
            let left = frame.left(&Actor::Client(ticket.client));
            (left.saturating_add(3), 12)
        }
        Lasting::Holding(node, ticket) => (frame.lane(*node, ticket.client), LANE - 2),
    }
}

/// Adds the bar of what lasted.
fn push_bar(
    alloc: Global,
    out: &mut String,
    frame: &Frame,
    mark: &Mark,
    what: &Lasting,
) -> Result<(), AllocError> {
    let (x, width) = bar_of(frame, what);
    let y = depth(&mark.from);
    let height = depth(&mark.upto).saturating_sub(y);
    let class = bar_class(what);
    write!(
        out,
        "<rect class='{class}' x='{x}' y='{y}' width='{width}' height='{height}'>"
    )?;
    push_title_of(alloc, out, mark)?;
    out.push_str("</rect>\n")
}

/// Adds the line that does not go on.
fn push_stop(
    alloc: Global,
    out: &mut String,
    frame: &Frame,
    mark: &Mark,
) -> Result<(), AllocError> {
    let (y, right) = (depth(&mark.from), frame.width());
    let base = y + 16;
    let mut title = String::new(alloc);
    push_title(alloc, &mut title, mark)?;
    write!(
        out,
        "<g><path class='x' d='M0 {y}H{right}'/><text class='u' x='12' y='{base}'>"
    )?;
    push_escaped(out, title.as_bytes())?;
    out.push_str("</text>")?;
    push_title_of(alloc, out, mark)?;
    out.push_str("</g>\n")
}

/// Adds a mark.
///
/// # Errors
///
/// Memory was refused. What was added then is not promised.
pub fn push_mark(
    alloc: Global,
    out: &mut String,
    frame: &Frame,
    mark: &Mark,
) -> Result<(), AllocError> {
    match &mark.sign {
        Sign::Event(event, effect) => push_happened(alloc, out, frame, mark, event, effect),
        Sign::Message(_, message) => push_arrow(alloc, out, frame, mark, message),
        Sign::Lost(_, message) => push_lost(alloc, out, frame, mark, message),
        Sign::Ended(what) | Sign::Open(what) => push_bar(alloc, out, frame, mark, what),
        Sign::NoEvent(_) | Sign::Refused(_) => push_stop(alloc, out, frame, mark),
    }
}

/// Adds the beginning: the frame, what the shapes are, the legend, and the head of each column. How many lines
/// there will be is known, if they are the part's; else the end tells it.
///
/// # Errors
///
/// Memory was refused. What was added then is not promised.
pub fn push_head(
    alloc: Global,
    out: &mut String,
    frame: &Frame,
    part: &Part,
) -> Result<(), AllocError> {
    let width = frame.width();
    write!(
        out,
        "<svg xmlns='http://www.w3.org/2000/svg' id='picture' width='{width}'"
    )?;
    if part.last < u32::MAX {
        let rows = part.last.saturating_sub(part.first).saturating_add(1);
        let height = TOP + BELOW + rows as u64 * (2 * HALF_ROW);
        write!(out, " height='{height}'")?;
    }
    out.push_str(" role='graphics-document'>\n<title>")?;
    push_about(alloc, out, frame, part)?;
    out.push_str("</title>\n<rect width='100%' height='100%' fill='#fff'/>\n")?;
    out.push_str(SHAPES)?;
    out.push_str("<text class='h' x='12' y='20'>")?;
    push_about(alloc, out, frame, part)?;
    out.push_str("</text>\n")?;
    out.push_str(LEGEND)?;
    push_columns(out, frame)
}

/// Adds what the picture is about.
fn push_about(
    alloc: Global,
    out: &mut String,
    frame: &Frame,
    part: &Part,
) -> Result<(), AllocError> {
    let (nodes, clients, first, last) = (frame.nodes, frame.clients, part.first, part.last);
    let mut text = String::new(alloc);
    write!(text, "A run. Nodes: {nodes}, clients: {clients}")?;
    if last < u32::MAX {
        write!(text, ", lines: {first} to {last}")?;
    } else if first > 1 {
        write!(text, ", lines: from {first} on")?;
    }
    if let Some(resource) = part.resource {
        write!(text, ", resource: {resource}")?;
    }
    push_escaped(out, text.as_bytes())
}

/// Adds the end: how high the picture is whose last line ends here.
///
/// # Errors
///
/// Memory was refused. What was added then is not promised.
pub fn push_end(out: &mut String, end: &Place) -> Result<(), AllocError> {
    let height = depth(end) + BELOW;
    writeln!(
        out,
        "<set href='#picture' attributeName='height' to='{height}'/>\n</svg>"
    )
}

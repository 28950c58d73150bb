// The legend, and the heads of columns.

use crate::frames::{Frame, TOP};
use lock_messages::{Actor, ClientId, NodeId};
use std::alloc::AllocError;

/// The legend, three signs in a row.
pub(crate) const LEGEND: &str = "\
<use href='#be' x='28' y='36'/><text x='52' y='40'>begins to ask</text>\n\
<use href='#tr' x='278' y='36'/><text x='302' y='40'>tries to keep it</text>\n\
<use href='#ke' x='528' y='36'/><text x='552' y='40'>has kept it</text>\n\
<use href='#ta' x='28' y='53'/><text x='52' y='57'>decides: its record changes</text>\n\
<use href='#do' x='278' y='53'/><text x='302' y='57'>says, hears, takes unchanged</text>\n\
<use href='#sw' x='528' y='53'/><text x='552' y='57'>takes the other problem</text>\n\
<use href='#en' x='28' y='70'/><text x='52' y='74'>enters</text>\n\
<use href='#so' x='278' y='70'/><text x='302' y='74'>softens: a reader from now on</text>\n\
<use href='#le' x='528' y='70'/><text x='552' y='74'>leaves, or gives up</text>\n\
<rect class='r' x='22' y='81' width='12' height='12'/><text x='52' y='91'>inside as a reader</text>\n\
<rect class='w' x='272' y='81' width='12' height='12'/><text x='302' y='91'>inside as a writer</text>\n\
<rect class='d' x='516' y='81' width='24' height='12'/><text x='552' y='91'>down, from a fall to a rise</text>\n\
<rect class='r' x='26' y='98' width='5' height='12'/><text x='52' y='108'>a vote that a reader holds</text>\n\
<rect class='w' x='276' y='98' width='5' height='12'/><text x='302' y='108'>a vote that a writer holds</text>\n\
<use href='#fa' x='521' y='104'/><use href='#ri' x='535' y='104'/><text x='552' y='108'>falls; rises</text>\n\
<path class='m q' marker-end='url(#q)' d='M14 121H42'/><text x='52' y='125'>request, or soften</text>\n\
<path class='m g' marker-end='url(#g)' d='M264 121H292'/><text x='302' y='125'>grant</text>\n\
<path class='m y' marker-end='url(#y)' d='M514 121H542'/><text x='552' y='125'>busy</text>\n\
<path class='m b' marker-end='url(#q)' d='M14 138H42'/><text x='52' y='142'>release</text>\n\
<path class='m s' marker-end='url(#s)' d='M264 138H292'/><text x='302' y='142'>done, over, and other answers</text>\n\
<path class='m q' d='M514 138H532'/><use href='#lo' x='532' y='138'/><text x='552' y='142'>lost: never taken or heard</text>\n\
";

/// Adds the head of an actor's column, and the line down from it.
fn push_column(out: &mut String, frame: &Frame, who: &Actor) -> Result<(), AllocError> {
    let (x, left, width) = (frame.axis(who), frame.left(who), frame.column_width(who));
    let (base, top, under) = (TOP - 8, TOP - 22, TOP - 2);
    let right = left.saturating_add(width).saturating_sub(4);
    write!(out, "<path class='a' d='M{left} {top}V{under}H{right}'/>")?;
    write!(
        out,
        "<line class='a' x1='{x}' y1='{under}' x2='{x}' y2='100%'/>"
    )?;
    writeln!(out, "<text class='h c' x='{x}' y='{base}'>{who}</text>")
}

/// Adds the heads of all columns.
pub(crate) fn push_columns(out: &mut String, frame: &Frame) -> Result<(), AllocError> {
    push_nodes(out, frame)?;
    push_clients(out, frame)
}

fn push_nodes(out: &mut String, frame: &Frame) -> Result<(), AllocError> {
    for number in 0..frame.nodes {
        if let Some(node) = NodeId::of(number.saturating_add(1)) {
            push_column(out, frame, &Actor::Node(node))?;
        }
    }
    Ok(())
}

fn push_clients(out: &mut String, frame: &Frame) -> Result<(), AllocError> {
    for number in 0..frame.clients {
        if let Some(client) = ClientId::of((number as u32).saturating_add(1)) {
            push_column(out, frame, &Actor::Client(client))?;
        }
    }
    Ok(())
}

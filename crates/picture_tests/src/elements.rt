// Marks as SVG: of the least and of the greatest size.

use event_lines::LineFault;
use lock_messages::{Actor, MAX_ATTEMPT, Message, Mode, NodeId, ResourceName, Ticket};
use lock_model::Heard;
use picture_svg::{Frame, push_end, push_head, push_mark};
use run_picture::{Lasting, Mark, Part, Place, Sign};
use std::alloc::Global;
use test_outcomes::{Failure, Outcome, check_row, node_id};
use test_support::ticket;
use world_model::{Effect, Event, StepFault};

const LEAST: Frame = Frame {
    nodes: 1,
    clients: 1,
};

const GREATEST: Frame = Frame {
    nodes: 16,
    clients: 1024,
};

/// How many signs of a ticket are tried.
const SIGNS: usize = 6;

/// One of the signs of a ticket: a message of it, heard or lost, the event in which it is heard, the ticket's
/// vote, that it is inside, and that its node is down.
fn sign_of(index: usize, node: &NodeId, ticket: &Ticket, number: u32) -> Sign {
    match index {
        0 => Sign::Event(
            Event::Hear(ticket.client, number),
            Effect::Heard(Message::Grant(*node, *ticket), Heard::NotMine),
        ),
        1 => Sign::Message(number, Message::Grant(*node, *ticket)),
        2 => Sign::Lost(number, Message::Grant(*node, *ticket)),
        3 => Sign::Ended(Lasting::Holding(*node, *ticket)),
        4 => Sign::Open(Lasting::Inside(*ticket)),
        _ => Sign::Ended(Lasting::Down(Actor::Node(*node))),
    }
}

/// Whether a mark is spelled with a title, right behind a tag's end.
fn is_titled(alloc: Global, frame: &Frame, mark: &Mark) -> Result<bool, Failure> {
    let mut out = String::new(alloc);
    push_mark(alloc, &mut out, frame, mark)?;
    Ok(out.as_str().find("><title>").is_some() && out.as_str().find("</title>").is_some())
}

/// Each mark of the least numbers has a title.
#[test]
fn least_marks(rt: HostRuntime) -> Outcome {
    let (node, ticket) = (node_id(1), ticket(1, 1, Mode::Write, b"a")?);
    let place = Place { line: 1, height: 1 };
    for index in 0..SIGNS {
        let mark = Mark {
            sign: sign_of(index, &node, &ticket, 1),
            from: place,
            upto: place,
        };
        let titled = is_titled(rt.alloc(), &LEAST, &mark)?;
        check_row(titled, index)?;
    }
    Ok(())
}

/// So has each mark of the greatest.
#[test]
fn greatest_marks(rt: HostRuntime) -> Outcome {
    let node = node_id(16);
    let ticket = ticket(
        1024,
        MAX_ATTEMPT,
        Mode::Write,
        b"abcdefghijklmnopqrstuvwxyz-01234",
    )?;
    let upto = Place {
        line: 4_194_304,
        height: 8_388_607,
    };
    for index in 0..SIGNS {
        let mark = Mark {
            sign: sign_of(index, &node, &ticket, 1_048_576),
            from: Place { line: 0, height: 0 },
            upto,
        };
        let titled = is_titled(rt.alloc(), &GREATEST, &mark)?;
        check_row(titled, index)?;
    }
    Ok(())
}

/// Rows of a line that cannot follow, and what is said of it.
const STOPS: [(Sign, &str); 2] = [
    (
        Sign::NoEvent(LineFault::Actor),
        ">line 7 cannot follow: fault 802, not a node or client<",
    ),
    (
        Sign::Refused(StepFault::NoQuorum),
        ">line 7 cannot follow: refused 609, not enough votes<",
    ),
];

#[test]
fn lines_that_cannot_follow(rt: HostRuntime) -> Outcome {
    let place = Place {
        line: 7,
        height: 12,
    };
    for (row, (sign, told)) in STOPS.iter().enumerate() {
        let mut out = String::new(rt.alloc());
        let mark = Mark {
            sign: *sign,
            from: place,
            upto: place,
        };
        push_mark(rt.alloc(), &mut out, &LEAST, &mark)?;
        check_row(out.as_str().find(told).is_some(), row)?;
    }
    Ok(())
}

/// The head of a picture says how high it is where that is known, and else its end does.
#[test]
fn heads_and_ends(rt: HostRuntime) -> Outcome {
    let mut out = String::new(rt.alloc());
    let part = Part {
        first: 3,
        last: 12,
        resource: ResourceName::of(b"a-9"),
    };
    push_head(rt.alloc(), &mut out, &LEAST, &part)?;
    check_row(out.as_str().find(" height='380' ").is_some(), 0)?;
    check_row(
        out.as_str()
            .find(">A run. Nodes: 1, clients: 1, lines: 3 to 12, resource: a-9<")
            .is_some(),
        1,
    )?;
    let end = Place {
        line: 12,
        height: 20,
    };
    push_end(&mut out, &end)?;
    check_row(
        out.as_str()
            .find("attributeName='height' to='380'/>\n</svg>")
            .is_some(),
        2,
    )
}

// A canvas that lists what is drawn on it.

use journal_picture::{Canvas, CanvasFault};
use run_picture::{Lasting, Mark, Part, Place, Sign};
use std::alloc::{AllocError, Global};

/// The pictures, in few words.
#[derive(Drop)]
pub(crate) struct Listing {
    pub(crate) text: String,
}

impl Listing {
    pub(crate) fn new(alloc: Global) -> Listing {
        Listing {
            text: String::new(alloc),
        }
    }
}

/// Adds what lasts.
fn push_lasting(text: &mut String, what: &Lasting) -> Result<(), AllocError> {
    match *what {
        Lasting::Down(who) => write!(text, "down {who}"),
        Lasting::Inside(ticket) => write!(text, "in {ticket}"),
        Lasting::Holding(node, ticket) => write!(text, "vote {node} {ticket}"),
    }
}

/// Adds a mark, and a semicolon.
fn push(text: &mut String, mark: &Mark) -> Result<(), AllocError> {
    let (from, upto) = (mark.from.line, mark.upto.line);
    match &mark.sign {
        Sign::Event(..) => write!(text, "{from};"),
        Sign::Message(number, _) => write!(text, "message {number} {from}-{upto};"),
        Sign::Lost(number, _) => write!(text, "lost {number} {from};"),
        Sign::Ended(what) => {
            push_lasting(text, what)?;
            write!(text, " {from}-{upto};")
        }
        Sign::Open(what) => {
            push_lasting(text, what)?;
            write!(text, " {from}-;")
        }
        Sign::NoEvent(fault) => {
            let number = fault.number();
            write!(text, "fault {number} {from};")
        }
        Sign::Refused(fault) => {
            let number = fault.number();
            write!(text, "refused {number} {from};")
        }
    }
}

impl Canvas for Listing {
    ghost use Rattle.std.specs.Prelude.{None};

    ghost drawn = { λ _. None };

    fn begin(&mut self, nodes: u8, clients: u16, part: &Part) -> Result<(), CanvasFault> {
        let (first, last) = (part.first, part.last);
        match write!(self.text, "n{nodes} c{clients} {first}-{last}:") {
            Ok(()) => Ok(()),
            Err(_) => Err(CanvasFault::Memory),
        }
    }

    fn end(&mut self, at: &Place) -> Result<(), CanvasFault> {
        let (line, height) = (at.line, at.height);
        match write!(self.text, "end {line} {height};") {
            Ok(()) => Ok(()),
            Err(_) => Err(CanvasFault::Memory),
        }
    }

    fn draw(&mut self, mark: &Mark) -> Result<(), CanvasFault> {
        match push(&mut self.text, mark) {
            Ok(()) => Ok(()),
            Err(_) => Err(CanvasFault::Memory),
        }
    }
}

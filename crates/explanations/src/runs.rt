// What is said of a run of all parts: who entered what, who ended by a fault, and which wishes were left.

use event_lines::{MAX_LINE_LEN, Wish, read_event};
use event_recorders::RunFault;
use fault_numbers::meaning_of;
use lock_messages::{Actor, ClientId};
use std::alloc::{AllocError, Global};
use std::io;
use std::io::{ErrorKind, Write};
use world_model::Event;

/// How many retry signals a client of a run may get in a wish.
const RETRIES: u32 = 1_000;

/// What the journal of a run tells of a client.
#[derive(Clone, Copy)]
struct Visits {
    /// How often it entered.
    entered: u32,
    /// Whether it is inside at the end.
    inside: bool,
}

/// Sees the journal of a run, and says what came of its wishes.
#[derive(Drop)]
pub struct RunWords {
    /// The line that has begun.
    piece: Vec<u8>,
    visits: Vec<Visits>,
}

impl Write for RunWords {
    fn write(&mut self, bytes: &[u8]) -> io::Result<usize> {
        for byte in bytes {
            if self.take(*byte).is_err() {
                return Err(io::Error::from(ErrorKind::OutOfMemory));
            }
        }
        Ok(bytes.len())
    }

    fn flush(&mut self) -> io::Result<()> {
        Ok(())
    }
}

/// Adds what a client is to do, as in `write a` or `read a b2`.
fn push_deed(text: &mut String, wish: &Wish) -> Result<(), AllocError> {
    let (mode, resource, place) = (wish.mode, wish.resource, wish.place);
    if wish.soften {
        write!(text, "soften {resource}")?;
    } else {
        write!(text, "{mode} {resource}")?;
    }
    match place {
        1 => Ok(()),
        place => write!(text, " b{place}"),
    }
}

/// How often something was done.
fn push_times(text: &mut String, count: usize) -> Result<(), AllocError> {
    match count {
        1 => text.push_str("once"),
        count => write!(text, "{count} times"),
    }
}

/// Adds the lines of what was entered: of each wish that is the first of its like, how many like it were.
fn push_entered(text: &mut String, wishes: &[Wish], done: &[bool]) -> Result<(), AllocError> {
    for (place, wish) in wishes.iter().enumerate() {
        let is_like = |other: &(&Wish, &bool)| *other.1 && *other.0 == *wish;
        let is_first = !wishes
            .iter()
            .zip(done)
            .take(place)
            .any(|other| is_like(&other));
        if is_first && done.get(place).copied().unwrap_or(false) {
            let count = wishes.iter().zip(done).filter(is_like).count();
            write!(text, "{} entered ", wish.client)?;
            push_times(text, count)?;
            text.push_str(": ")?;
            push_deed(text, wish)?;
            text.push_str("\n")?;
        }
    }
    Ok(())
}

/// Adds the lines of the wishes that were left.
fn push_left(text: &mut String, wishes: &[Wish], done: &[bool]) -> Result<(), AllocError> {
    for (before, (wish, done)) in wishes.iter().zip(done).enumerate() {
        if !*done {
            write!(
                text,
                "wish {} was not done: {} ",
                before.saturating_add(1),
                wish.client
            )?;
            push_deed(text, wish)?;
            text.push_str("\n")?;
        }
    }
    Ok(())
}

/// Adds which of the wishes a client was at: the one of this number among its own.
fn push_wish_of(
    text: &mut String,
    wishes: &[Wish],
    client: ClientId,
    number: u32,
) -> Result<(), AllocError> {
    let own = wishes
        .iter()
        .enumerate()
        .filter(|(_, wish)| wish.client == client);
    match own.skip(number as usize).next() {
        Some((before, wish)) => {
            write!(text, " in wish {} (", before.saturating_add(1))?;
            push_deed(text, wish)?;
            text.push_str(")")
        }
        None => text.push_str(" after its last wish"),
    }
}

/// Adds why an actor ended.
fn push_why(text: &mut String, fault: RunFault) -> Result<(), AllocError> {
    match fault {
        RunFault::GaveUp => write!(text, "gave up after {RETRIES} retries"),
        _ => text.push_str(meaning_of(fault.number())),
    }
}

impl RunWords {
    /// Of a run with so many clients.
    pub fn new(alloc: Global, clients: u16) -> Result<RunWords, AllocError> {
        let none = Visits {
            entered: 0,
            inside: false,
        };
        Ok(RunWords {
            piece: Vec::new(alloc),
            visits: vec![in alloc; none; clients as usize]?,
        })
    }

    /// Takes a byte of the journal.
    fn take(&mut self, byte: u8) -> Result<(), AllocError> {
        if byte != b'\n' {
            if self.piece.len() <= MAX_LINE_LEN {
                self.piece.push(byte)?;
            }
            return Ok(());
        }
        if let Ok(event) = read_event(self.piece.as_slice()) {
            self.follow(&event);
        }
        self.piece.clear();
        Ok(())
    }

    /// Follows an event of the journal.
    fn follow(&mut self, event: &Event) {
        match *event {
            Event::Enter(client) => {
                let entered = self.visits_of(client).entered.saturating_add(1);
                self.see(
                    client,
                    Visits {
                        entered,
                        inside: true,
                    },
                );
            }
            Event::Leave(client) | Event::Fall(Actor::Client(client)) => {
                let entered = self.visits_of(client).entered;
                self.see(
                    client,
                    Visits {
                        entered,
                        inside: false,
                    },
                );
            }
            _ => {}
        }
    }

    /// What is known of a client.
    fn visits_of(&self, client: ClientId) -> Visits {
        let none = Visits {
            entered: 0,
            inside: false,
        };
        let place = client.get() as usize - 1;
        self.visits.get(place).copied().unwrap_or(none)
    }

    fn see(&mut self, client: ClientId, visits: Visits) {
        let place = client.get() as usize - 1;
        if place < self.visits.len() {
            self.visits[place] = visits;
        }
    }

    /// Whether each of the wishes was entered: a client enters its own in order.
    fn done(&self, alloc: Global, wishes: &[Wish]) -> Result<Vec<bool>, AllocError> {
        let mut done = Vec::new(alloc);
        for (place, wish) in wishes.iter().enumerate() {
            let own = wishes
                .iter()
                .take(place)
                .filter(|other| other.client == wish.client);
            let before = own.count();
            done.push(before < self.visits_of(wish.client).entered as usize)?;
        }
        Ok(done)
    }

    /// Adds the lines of those that ended by a fault, with the wish that a client was at.
    fn push_faults(
        &self,
        text: &mut String,
        wishes: &[Wish],
        faults: &[(Actor, RunFault)],
    ) -> Result<(), AllocError> {
        for (actor, fault) in faults {
            write!(text, "{actor} fault {}: ", fault.number())?;
            push_why(text, *fault)?;
            if let Actor::Client(client) = *actor {
                let visits = self.visits_of(client);
                let before = visits.entered.saturating_sub(u32::from(visits.inside));
                push_wish_of(text, wishes, client, before)?;
            }
            text.push_str("\n")?;
        }
        Ok(())
    }

    /// Adds who entered what and how often, who ended by a fault and in which wish, and which wishes were
    /// left. Wishes are numbered from 1, as the settings have them. After want of memory a part was added.
    pub fn push(
        &self,
        alloc: Global,
        text: &mut String,
        wishes: &[Wish],
        faults: &[(Actor, RunFault)],
    ) -> Result<(), AllocError> {
        let done = self.done(alloc, wishes)?;
        push_entered(text, wishes, done.as_slice())?;
        self.push_faults(text, wishes, faults)?;
        push_left(text, wishes, done.as_slice())
    }
}

// The tickets of one resource.

ghost use Rattle.std.specs.Prelude.{◌≡◌, ◌==◌, ℕ, List, OnOk, OnErr, nat_lt};
ghost use Rattle.std.specs.List.{position};
ghost use Rattle.stable_record.specs.Indexing.{AreCounted, announced_ticket, is_no_tickets, with_confirmed, with_holder, with_promoted, with_softened_holder, without_first, without_last, without_ticket};
ghost use Rattle.stable_record.specs.Lines.{no_tickets, with_ticket, AreFew};

use crate::tickets::is_writing;
use crate::{Live, Status};
use lock_messages::{ClientId, Mode};
use std::alloc::{AllocError, Global};
use std::marker::Model;

/// What a node knows of one resource: how many tickets hold it and whether one is a writer's, how
/// many writers wait for it, and who waits, in the order of the entries.
/// It counts writers that hold, though a lawful record has one at most: a count can be taken back, a yes or no can't.
#[derive(Debug, Drop)]
pub struct Line {
    held: usize,
    held_to_write: usize,
    writers: usize,
    queue: Vec<ClientId>,
}

impl Model for Line {
    ghost use Rattle.stable_record.specs.Lines.{Tickets, tickets_with};

    ghost Value = { Tickets };

    ghost view = { λ l. tickets_with l.held l.held_to_write l.writers l.queue.items };
}

/// Where the client stands first in a queue.
fn place_of(queue: &[ClientId], client: ClientId) -> Option<usize>
    ensures { result ≡ position (λ other. other == client) queue.now }
{
    queue.iter().position(|other| *other == client)
}

/// Takes a client's first place from a queue.
fn drop_first(queue: &mut Vec<ClientId>, client: ClientId)
    ensures { queue.new.items ≡ without_first client queue.old.items }
{
    if let Some(place) = place_of(queue.as_slice(), client) {
        queue.remove(place);
    }
}

impl Line {
    /// No tickets.
    pub(crate) fn new(alloc: Global) -> Line
        ensures { result ≡ no_tickets }
    {
        Line {
            held: 0,
            held_to_write: 0,
            writers: 0,
            queue: Vec::new(alloc),
        }
    }

    /// Adds a client's ticket, behind those that wait. Where memory is refused nothing has changed.
    pub(crate) fn join(&mut self, client: ClientId, live: &Live) -> Result<(), AllocError>
        requires { AreFew self.old }
        ensures joined { OnOk result (self.new ≡ with_ticket client live.now self.old) }
        ensures refused { OnErr result (self.new ≡ self.old) }
    {
        match (live.status, live.mode) {
            (Status::Holding | Status::Softened, Mode::Read) => self.held += 1,
            (Status::Holding | Status::Softened, Mode::Write) => {
                self.held += 1;
                self.held_to_write += 1;
            }
            (Status::Waiting, Mode::Read) => self.queue.push(client)?,
            (Status::Waiting, Mode::Write) => {
                self.queue.push(client)?;
                self.writers += 1;
            }
        }
        Ok(())
    }

    /// Announces a client: it waits behind the others, and counts nowhere. Where memory is refused
    /// nothing has changed.
    pub(crate) fn announce(&mut self, client: ClientId) -> Result<(), AllocError>
        ensures announced { OnOk result ((x : List ℕ) → self.new ≡ with_ticket client (announced_ticket x) self.old) }
        ensures refused { OnErr result (self.new ≡ self.old) }
    {
        self.queue.push(client)?;
        Ok(())
    }

    /// Takes away the last that waits.
    pub(crate) fn withdraw(&mut self)
        ensures { self.new ≡ without_last self.old }
    {
        self.queue.pop();
    }

    /// Takes away a client's ticket. A count that is 0 stays.
    pub(crate) fn end(&mut self, client: ClientId, live: &Live)
        ensures { self.new ≡ without_ticket client live.now self.old }
    {
        match (live.status, live.mode) {
            (Status::Holding | Status::Softened, Mode::Read) => {
                self.held = self.held.saturating_sub(1);
            }
            (Status::Holding | Status::Softened, Mode::Write) => {
                self.held = self.held.saturating_sub(1);
                self.held_to_write = self.held_to_write.saturating_sub(1);
            }
            (Status::Waiting, Mode::Read) => drop_first(&mut self.queue, client),
            (Status::Waiting, Mode::Write) => {
                drop_first(&mut self.queue, client);
                self.writers = self.writers.saturating_sub(1);
            }
        }
    }

    /// Counts a ticket in this mode that holds.
    fn hold(&mut self, mode: Mode)
        ensures { AreCounted self.old → self.new ≡ with_holder mode self.old }
    {
        self.held = self.held.saturating_add(1);
        match mode {
            Mode::Read => {}
            Mode::Write => self.held_to_write = self.held_to_write.saturating_add(1),
        }
    }

    /// Makes a client's ticket hold, if it waits.
    pub(crate) fn promote(&mut self, client: ClientId, live: &Live)
        ensures { AreCounted self.old → self.new ≡ with_promoted client live.now self.old }
    {
        match live.status {
            Status::Holding | Status::Softened => {}
            Status::Waiting => {
                self.end(client, live);
                self.hold(live.mode);
            }
        }
    }

    /// Makes a ticket a reader's, if it is a writer's that holds. A count that is 0 stays.
    pub(crate) fn soften(&mut self, live: &Live)
        ensures { self.new ≡ with_softened_holder live.now self.old }
    {
        if is_writing(live) {
            self.held_to_write = self.held_to_write.saturating_sub(1);
        }
    }

    /// Puts in the ticket of the client that was announced last.
    pub(crate) fn confirm(&mut self, live: &Live)
        ensures { AreCounted self.old → self.new ≡ with_confirmed live.now self.old }
    {
        match (live.status, live.mode) {
            (Status::Holding | Status::Softened, mode) => {
                self.withdraw();
                self.hold(mode);
            }
            (Status::Waiting, Mode::Read) => {}
            (Status::Waiting, Mode::Write) => self.writers = self.writers.saturating_add(1),
        }
    }

    /// Whether it has no tickets.
    pub(crate) fn is_empty(&self) -> bool
        ensures { result ≡ is_no_tickets self.now }
    {
        self.held == 0 && self.queue.is_empty()
    }

    /// How many tickets hold the resource.
    pub fn holders(&self) -> usize
        ensures { result ≡ self.now.holders }
    {
        self.held
    }

    /// Whether a writer's ticket holds it.
    pub fn has_writing_holder(&self) -> bool
        ensures { result ≡ nat_lt 0 self.now.writing_holders }
    {
        self.held_to_write > 0
    }

    /// How many writers' tickets wait for it.
    pub fn waiting_writers(&self) -> usize
        ensures { result ≡ self.now.waiting_writers }
    {
        self.writers
    }

    /// The clients whose tickets wait for it, in the order of the entries.
    pub fn waiting(&self) -> &[ClientId]
        ensures { result.now ≡ self.now.waiting }
    {
        self.queue.as_slice()
    }
}

// What a node keeps of each client.

ghost use Rattle.std.specs.Prelude.{◌≡◌, if◌then◌else◌};
ghost use Rattle.lock_model.specs.Stations.{asked_mode};
ghost use Rattle.lock_model.specs.ExactStations.{is_of, is_waiting, is_holding, if_live, holds, writer_holds, writer_waits};
ghost use Rattle.lock_model.specs.ExactDecisions.{ended_entry, softened_live, softened_entry};

use lock_messages::{Attempt, ClientId, Mode, ResourceName};

/// Whether a live ticket has the node's vote, and whether as it was asked for.
#[derive(Clone, Copy, Debug, PartialEq, Eq)]
pub enum Status {
    /// It waits for the vote.
    Waiting,
    /// It holds the vote.
    Holding,
    /// It holds the vote as a reader, and was asked for by a writer.
    Softened,
}

/// A client's live ticket at a node. The mode of a softened one is `Read`.
#[derive(Clone, Copy, Debug, PartialEq, Eq)]
pub struct Live {
    pub attempt: Attempt,
    pub mode: Mode,
    pub resource: ResourceName,
    pub status: Status,
}

/// What a node keeps of one client.
///
/// The client's attempts up to `floor` are ended; 0 means that none is. A live ticket's attempt is
/// one above the floor (our own rule). A client without an entry has floor 0 and no live ticket.
#[derive(Clone, Copy, Debug, PartialEq, Eq)]
pub struct Entry {
    pub client: ClientId,
    pub floor: u64,
    pub live: Option<Live>,
}

impl Live {
    /// Whether it waits.
    pub fn waits(&self) -> bool
        ensures { result ≡ is_waiting self.now.status }
    {
        match self.status {
            Status::Waiting => true,
            Status::Holding | Status::Softened => false,
        }
    }

    /// Whether it holds the resource.
    pub fn holds(&self, resource: &ResourceName) -> bool
        ensures { result ≡ holds resource.now self.now }
    {
        match self.status {
            Status::Waiting => false,
            Status::Holding | Status::Softened => self.resource == *resource,
        }
    }

    /// Whether it is a writer's that holds the resource.
    pub fn writer_holds(&self, resource: &ResourceName) -> bool
        ensures { result ≡ writer_holds resource.now self.now }
    {
        match self.mode {
            Mode::Read => false,
            Mode::Write => self.holds(resource),
        }
    }

    /// Whether it is a writer's that waits for the resource.
    pub fn writer_waits(&self, resource: &ResourceName) -> bool
        ensures { result ≡ writer_waits resource.now self.now }
    {
        match self.mode {
            Mode::Read => false,
            Mode::Write => self.waits() && self.resource == *resource,
        }
    }

    /// The mode in which it was asked for: a softened ticket's was `Write`.
    pub fn asked_mode(&self) -> Mode
        ensures { result ≡ asked_mode self.now.mode self.now.status }
    {
        match self.status {
            Status::Waiting | Status::Holding => self.mode,
            Status::Softened => Mode::Write,
        }
    }

    /// The ticket once its attempt is softened: a writer that holds is a reader that does, and of one
    /// that waits nothing is left. Any other ticket stays as it is (our own rule).
    pub fn softened(self, attempt: Attempt) -> Option<Live>
        ensures { result ≡ softened_live attempt self }
    {
        if self.attempt != attempt || self.mode != Mode::Write {
            return Some(self);
        }
        match self.status {
            Status::Waiting => None,
            Status::Holding => Some(Live {
                mode: Mode::Read,
                status: Status::Softened,
                ..self
            }),
            Status::Softened => Some(self),
        }
    }
}

impl Entry {
    /// Whether it is this client's.
    pub(crate) fn is_of(&self, client: ClientId) -> bool
        ensures { result ≡ is_of client self.now }
    {
        self.client == client
    }

    /// The entry with its attempts up to this one ended.
    fn ended(self, attempt: u64) -> Entry
        ensures { result ≡ ended_entry attempt self }
    {
        if self.floor < attempt {
            Entry {
                client: self.client,
                floor: attempt,
                live: None,
            }
        } else {
            self
        }
    }

    /// The entry with these attempts ended, if it is this client's.
    pub(crate) fn ended_for(&self, client: ClientId, attempt: u64) -> Entry
        ensures { result ≡ (if is_of client self.now then ended_entry attempt self.now else self.now) }
    {
        if self.is_of(client) {
            self.ended(attempt)
        } else {
            *self
        }
    }

    /// The entry with this attempt softened, if it is this client's.
    pub(crate) fn softened_for(&self, client: ClientId, attempt: Attempt) -> Entry
        ensures { result ≡ (if is_of client self.now then softened_entry attempt self.now else self.now) }
    {
        if !self.is_of(client) {
            return *self;
        }
        Entry {
            client: self.client,
            floor: self.floor,
            live: match self.live {
                None => None,
                Some(live) => live.softened(attempt),
            },
        }
    }

    /// Whether its ticket waits.
    pub(crate) fn waits(&self) -> bool
        ensures { result ≡ if_live (λ l. is_waiting l.status) self.now.live }
    {
        self.live.is_some_and(|live| live.waits())
    }

    /// Whether its ticket holds the resource.
    pub(crate) fn holds(&self, resource: &ResourceName) -> bool
        ensures { result ≡ if_live (holds resource.now) self.now.live }
    {
        self.live.is_some_and(|live| live.holds(resource))
    }

    /// Whether its ticket is a writer's that holds the resource.
    pub(crate) fn writer_holds(&self, resource: &ResourceName) -> bool
        ensures { result ≡ if_live (writer_holds resource.now) self.now.live }
    {
        self.live.is_some_and(|live| live.writer_holds(resource))
    }

    /// Whether its ticket is a writer's that waits for the resource.
    pub(crate) fn writer_waits(&self, resource: &ResourceName) -> bool
        ensures { result ≡ if_live (writer_waits resource.now) self.now.live }
    {
        self.live.is_some_and(|live| live.writer_waits(resource))
    }
}

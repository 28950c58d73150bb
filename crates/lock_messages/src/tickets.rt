// Tickets: what a client asks of each node in one attempt.

use crate::{Attempt, ClientId, ResourceName};
use std::fmt;

/// How a client wants to use a resource (Courtois, Heymans and Parnas 1971). Prints as `read` or
/// `write`.
#[derive(Clone, Copy, Debug, PartialEq, Eq, Hash)]
pub enum Mode {
    /// Together with other readers.
    Read,
    /// Alone.
    Write,
}

/// One attempt of one client to use one resource in one mode. Prints as `c1 1 read a`.
#[derive(Clone, Copy, Debug, PartialEq, Eq, Hash)]
pub struct Ticket {
    pub client: ClientId,
    pub attempt: Attempt,
    pub mode: Mode,
    pub resource: ResourceName,
}

impl fmt::Display for Mode {
    ghost use Rattle.std.specs.Prelude.{Some};
    ghost use Rattle.lock_messages.specs.Texts.{mode_text};

    ghost output = { λ m. Some (mode_text m) };

    fn fmt<W: fmt::Write>(&self, f: &mut fmt::Formatter<W>) -> fmt::Result {
        f.write_str(match self {
            Mode::Read => "read",
            Mode::Write => "write",
        })
    }
}

impl fmt::Display for Ticket {
    ghost use Rattle.std.specs.Prelude.{Some};
    ghost use Rattle.lock_messages.specs.Texts.{ticket_text};

    ghost output = { λ t. Some (ticket_text t) };

    fn fmt<W: fmt::Write>(&self, f: &mut fmt::Formatter<W>) -> fmt::Result {
        let (client, attempt) = (self.client, self.attempt);
        let (mode, resource) = (self.mode, self.resource);
        write!(f, "{client} {attempt} {mode} {resource}")
    }
}

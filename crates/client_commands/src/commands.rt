// What a client is told to do.

use lock_messages::{Mode, ResourceName};
use std::fmt;

/// How long a client waits for a lock.
#[derive(Clone, Copy, Debug, PartialEq, Eq)]
pub enum Waiting {
    /// Until it gets the lock.
    Long,
    /// For so many milliseconds.
    Within(u32),
    /// Not at all: if a node queues the request, the client takes it back.
    Never,
}

/// A lock that a client asks for.
#[derive(Clone, Copy, Debug, PartialEq, Eq)]
pub struct Entry {
    pub mode: Mode,
    pub resource: ResourceName,
    /// The place of the ballot, from 1 on. Which places there are, the service's settings say.
    pub place: u8,
    pub waiting: Waiting,
}

/// A command of a client's program. Prints as its one line, without a line feed.
#[derive(Clone, Copy, Debug, PartialEq, Eq)]
pub enum Command {
    /// It asks for a lock.
    Enter(Entry),
    /// It goes on as a reader.
    Soften,
    /// It releases the lock.
    Leave,
    /// It says what it holds.
    Status,
}

/// The first word of a command that does not wait.
#[derive(Drop)]
struct FirstWord(Waiting);

impl fmt::Display for FirstWord {
    ghost use Rattle.std.specs.Prelude.{Some};
    ghost use Rattle.client_commands.specs.Commands.{try_text};

    ghost output = { λ w. Some (try_text w.0) };

    fn fmt<W: fmt::Write>(&self, f: &mut fmt::Formatter<W>) -> fmt::Result {
        match self.0 {
            Waiting::Never => f.write_str("try "),
            Waiting::Long | Waiting::Within(_) => f.write_str(""),
        }
    }
}

/// The word of a place, with the space before it. The first place has none.
#[derive(Drop)]
struct PlaceWord(u8);

impl fmt::Display for PlaceWord {
    ghost use Rattle.std.specs.Prelude.{Some};
    ghost use Rattle.client_commands.specs.Commands.{place_text};

    ghost output = { λ w. Some (place_text w.0) };

    fn fmt<W: fmt::Write>(&self, f: &mut fmt::Formatter<W>) -> fmt::Result {
        let place = self.0;
        if place == 1 {
            return f.write_str("");
        }
        write!(f, " b{place}")
    }
}

/// The words that say how long a command waits, with the space before them.
#[derive(Drop)]
struct WithinWords(Waiting);

impl fmt::Display for WithinWords {
    ghost use Rattle.std.specs.Prelude.{Some};
    ghost use Rattle.client_commands.specs.Commands.{within_text};

    ghost output = { λ w. Some (within_text w.0) };

    fn fmt<W: fmt::Write>(&self, f: &mut fmt::Formatter<W>) -> fmt::Result {
        match self.0 {
            Waiting::Within(milliseconds) => write!(f, " within {milliseconds}"),
            Waiting::Long | Waiting::Never => f.write_str(""),
        }
    }
}

impl fmt::Display for Entry {
    ghost use Rattle.std.specs.Prelude.{Some};
    ghost use Rattle.client_commands.specs.Commands.{entry_text};

    ghost output = { λ e. Some (entry_text e) };

    fn fmt<W: fmt::Write>(&self, f: &mut fmt::Formatter<W>) -> fmt::Result {
        let (mode, resource) = (self.mode, self.resource);
        let first = FirstWord(self.waiting);
        let place = PlaceWord(self.place);
        let within = WithinWords(self.waiting);
        write!(f, "{first}{mode} {resource}{place}{within}")
    }
}

impl fmt::Display for Command {
    ghost use Rattle.std.specs.Prelude.{Some};
    ghost use Rattle.client_commands.specs.Commands.{command_text};

    ghost output = { λ c. Some (command_text c) };

    fn fmt<W: fmt::Write>(&self, f: &mut fmt::Formatter<W>) -> fmt::Result {
        match self {
            Command::Enter(entry) => write!(f, "{entry}"),
            Command::Soften => f.write_str("soften"),
            Command::Leave => f.write_str("leave"),
            Command::Status => f.write_str("status"),
        }
    }
}

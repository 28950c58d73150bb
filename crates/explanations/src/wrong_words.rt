// Which word of a line or of a wish is wrong, and what is expected in its place.

use event_lines::{Command, MAX_LINE_LEN, Wish, read_line, read_wish, read_wish_among};
use lock_messages::{MAX_CLIENTS, MAX_NODES};
use std::alloc::{AllocError, Global};
use std::fmt;
use vote_weights::MAX_BALLOTS;
use world_model::MAX_MESSAGES;

/// The commands of a journal, and behind them the queries that a script has too.
const COMMANDS: [Command; 16] = [
    Command::Begin,
    Command::Try,
    Command::Kept,
    Command::SayTo,
    Command::Say,
    Command::Take,
    Command::Hear,
    Command::Enter,
    Command::Leave,
    Command::Soften,
    Command::Fall,
    Command::Rise,
    Command::Switch,
    Command::Inside,
    Command::Waiting,
    Command::Holding,
];

/// How many of them are events.
const EVENTS: usize = 13;

/// What a word has to be.
#[derive(Clone, Copy)]
enum Expected {
    Node,
    Client,
    Actor,
    Message,
    Name,
    Mode,
    Age,
    Problem,
    Place,
    /// The mode of a wish.
    WishMode,
    /// One of so many clients.
    ClientOf(u16),
    /// The place of one of so many ballots.
    PlaceOf(u8),
}

/// The names from one number to another, as `n1 to n3`, or `n1` if it is the only one.
#[derive(Clone, Copy)]
pub struct Names {
    pub letter: char,
    pub first: u32,
    pub last: u32,
}

impl fmt::Display for Names {
    fn fmt<W: fmt::Write>(&self, f: &mut fmt::Formatter<W>) -> fmt::Result {
        let (letter, first, last) = (self.letter, self.first, self.last);
        if first == last {
            return write!(f, "{letter}{first}");
        }
        write!(f, "{letter}{first} to {letter}{last}")
    }
}

impl fmt::Display for Expected {
    fn fmt<W: fmt::Write>(&self, f: &mut fmt::Formatter<W>) -> fmt::Result {
        match *self {
            Expected::Node => write!(f, "a node (n1 to n{MAX_NODES})"),
            Expected::Client => write!(f, "a client (c1 to c{MAX_CLIENTS})"),
            Expected::Actor => write!(
                f,
                "a node or client (n1 to n{MAX_NODES}, c1 to c{MAX_CLIENTS})"
            ),
            Expected::Message => write!(f, "the number of a message (1 to {MAX_MESSAGES})"),
            Expected::Name => f.write_str("a name (1 to 32 of a-z, 0-9 and -)"),
            Expected::Mode => f.write_str("read or write"),
            Expected::Age => f.write_str("old or new"),
            Expected::Problem => f.write_str("a problem (1 or 2)"),
            Expected::Place => write!(f, "the place of a ballot (b2 to b{MAX_BALLOTS})"),
            Expected::WishMode => f.write_str("read, write or soften"),
            Expected::ClientOf(clients) => {
                let names = Names {
                    letter: 'c',
                    first: 1,
                    last: u32::from(clients),
                };
                write!(f, "a client of these settings ({names})")
            }
            Expected::PlaceOf(1) => f.write_str("a place of these settings, which have one ballot"),
            Expected::PlaceOf(ballots) => {
                let names = Names {
                    letter: 'b',
                    first: 2,
                    last: u32::from(ballots),
                };
                write!(f, "the place of a ballot of these settings ({names})")
            }
        }
    }
}

/// What the words after a command's own have to be. The last one of `begin` may be left out.
fn arguments_of(command: Command) -> &'static [Expected] {
    match command {
        Command::Begin => &[
            Expected::Client,
            Expected::Mode,
            Expected::Name,
            Expected::Place,
        ],
        Command::Try | Command::Kept | Command::Fall => &[Expected::Actor],
        Command::SayTo => &[Expected::Client, Expected::Node],
        Command::Say => &[Expected::Node],
        Command::Take => &[Expected::Node, Expected::Message],
        Command::Hear => &[Expected::Client, Expected::Message],
        Command::Enter | Command::Leave | Command::Soften => &[Expected::Client],
        Command::Rise => &[Expected::Actor, Expected::Age],
        Command::Switch => &[Expected::Node, Expected::Problem],
        Command::Inside => &[Expected::Name],
        Command::Waiting | Command::Holding => &[Expected::Node, Expected::Name],
    }
}

/// Whether a line that has the word at its one open place is a line.
fn fits(alloc: Global, front: &str, word: &str, back: &str) -> Result<bool, AllocError> {
    let line = format!(in alloc; "{front}{word}{back}")?;
    Ok(read_line(&COMMANDS, line.as_bytes()).is_ok())
}

/// The wish that has the word at its one open place.
fn wish_with(alloc: Global, word: &str, place: usize) -> Result<Option<Wish>, AllocError> {
    let text = match place {
        1 => format!(in alloc; "c1 {word} a")?,
        _ => format!(in alloc; "c1 read a {word}")?,
    };
    Ok(read_wish(text.as_bytes()).ok())
}

/// Whether the word is one of so many clients.
fn is_client_of(alloc: Global, word: &str, clients: u16) -> Result<bool, AllocError> {
    let text = format!(in alloc; "{word} read a")?;
    Ok(read_wish_among(clients, text.as_bytes()).is_ok())
}

/// Whether a word is what is expected, as lines and wishes are read.
fn is_right(alloc: Global, expected: Expected, word: &str) -> Result<bool, AllocError> {
    match expected {
        Expected::Node => fits(alloc, "say ", word, ""),
        Expected::Client => fits(alloc, "enter ", word, ""),
        Expected::Actor => fits(alloc, "try ", word, ""),
        Expected::Message => fits(alloc, "take n1 ", word, ""),
        Expected::Name => fits(alloc, "inside ", word, ""),
        Expected::Mode => fits(alloc, "begin c1 ", word, " a"),
        Expected::Age => fits(alloc, "rise n1 ", word, ""),
        Expected::Problem => fits(alloc, "switch n1 ", word, ""),
        Expected::Place => fits(alloc, "begin c1 read a ", word, ""),
        Expected::WishMode => Ok(wish_with(alloc, word, 1)?.is_some()),
        Expected::ClientOf(clients) => is_client_of(alloc, word, clients),
        Expected::PlaceOf(ballots) => match wish_with(alloc, word, 3)? {
            Some(wish) => Ok(wish.place <= ballots),
            None => Ok(false),
        },
    }
}

/// Adds the first of the words that is not what is expected; returns whether there is one.
fn push_wrong_word(
    alloc: Global,
    text: &mut String,
    expected: &[Expected],
    words: &str,
) -> Result<bool, AllocError> {
    for (expected, word) in expected.iter().zip(words.split(' ')) {
        if !is_right(alloc, *expected, word)? {
            write!(text, "{word:?} is not {expected}")?;
            return Ok(true);
        }
    }
    Ok(false)
}

/// The command of this word, and the words after it, if there are any.
fn command_of(line: &str) -> Option<(Command, Option<&str>)> {
    let (first, rest) = match line.split_once(' ') {
        Some((first, rest)) => (first, Some(rest)),
        None => (line, None),
    };
    let command = COMMANDS.iter().find(|command| command.word() == first)?;
    Some((*command, rest))
}

/// Adds that a command is not known, and those that are.
fn push_unknown_command(text: &mut String, line: &str, queries: bool) -> Result<(), AllocError> {
    let first = line.split(' ').next().unwrap_or("");
    write!(text, "unknown command {first:?}: expected ")?;
    let count = if queries { COMMANDS.len() } else { EVENTS };
    for (place, command) in COMMANDS.iter().take(count).enumerate() {
        text.push_str(match count.saturating_sub(place) {
            1 => " or ",
            _ if place == 0 => "",
            _ => ", ",
        })?;
        text.push_str(command.word())?;
    }
    Ok(())
}

/// Adds how many arguments a command takes, if these are more or fewer; returns whether they are.
fn push_wrong_count(
    text: &mut String,
    command: Command,
    rest: Option<&str>,
) -> Result<bool, AllocError> {
    let most = arguments_of(command).len();
    let had = rest.map_or(0, |rest| rest.split(' ').count());
    let word = command.word();
    if command == Command::Begin && had != 3 && had != 4 {
        write!(text, "begin takes 3 or 4 arguments, not {had}")?;
        return Ok(true);
    }
    if command != Command::Begin && had != most {
        let plural = if most == 1 { "" } else { "s" };
        write!(text, "{word} takes {most} argument{plural}, not {had}")?;
        return Ok(true);
    }
    Ok(false)
}

/// Adds what is wrong with a line, of a script with its queries or of a journal without them; returns whether
/// anything was found.
pub fn push_wrong_line(
    alloc: Global,
    text: &mut String,
    line: &str,
    queries: bool,
) -> Result<bool, AllocError> {
    if line.len() > MAX_LINE_LEN {
        write!(text, "the line has more than {MAX_LINE_LEN} bytes")?;
        return Ok(true);
    }
    match command_of(line) {
        Some((command, rest)) if queries || is_event(command) => {
            if push_wrong_count(text, command, rest)? {
                return Ok(true);
            }
            push_wrong_word(alloc, text, arguments_of(command), rest.unwrap_or(""))
        }
        _ => {
            push_unknown_command(text, line, queries)?;
            Ok(true)
        }
    }
}

/// Whether the command is an event.
fn is_event(command: Command) -> bool {
    match command {
        Command::Inside | Command::Waiting | Command::Holding => false,
        _ => true,
    }
}

/// Adds what is wrong with a wish, among so many clients and ballots; returns whether anything was found.
pub fn push_wrong_wish_word(
    alloc: Global,
    text: &mut String,
    clients: u16,
    ballots: u8,
    wish: &str,
) -> Result<bool, AllocError> {
    let had = wish.split(' ').count();
    if wish.len() > MAX_LINE_LEN {
        write!(text, "it has more than {MAX_LINE_LEN} bytes")?;
        return Ok(true);
    }
    if had != 3 && had != 4 {
        write!(text, "a wish has 3 or 4 words, not {had}")?;
        return Ok(true);
    }
    let expected = [
        Expected::ClientOf(clients),
        Expected::WishMode,
        Expected::Name,
        Expected::PlaceOf(ballots),
    ];
    push_wrong_word(alloc, text, expected.as_slice(), wish)
}

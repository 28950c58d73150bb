// The words that lines begin with.

ghost use Rattle.std.specs.Prelude.{◌≡◌, Ok, IfSome, slice_get, string_bytes};
ghost use Rattle.std.specs.Str.{bytes_eq};
ghost use Rattle.event_lines.specs.Commands.{word_of, named};

use crate::LineFault;

/// What a line tells or asks, without its arguments. The last three are queries, which scripts have
/// beside the events.
#[derive(Clone, Copy, Debug, PartialEq, Eq)]
pub enum Command {
    Begin,
    Try,
    Kept,
    SayTo,
    Say,
    Take,
    Hear,
    Enter,
    Leave,
    Soften,
    Fall,
    Rise,
    Switch,
    Inside,
    Waiting,
    Holding,
}

impl Command {
    /// The first word of its lines.
    pub fn word(self) -> &'static str
        ensures { result.now ≡ word_of self }
    {
        match self {
            Command::Begin => "begin",
            Command::Try => "try",
            Command::Kept => "kept",
            Command::SayTo => "sayto",
            Command::Say => "say",
            Command::Take => "take",
            Command::Hear => "hear",
            Command::Enter => "enter",
            Command::Leave => "leave",
            Command::Soften => "soften",
            Command::Fall => "fall",
            Command::Rise => "rise",
            Command::Switch => "switch",
            Command::Inside => "inside",
            Command::Waiting => "waiting",
            Command::Holding => "holding",
        }
    }
}

/// Whether it is the command's word. First bytes tell most words apart.
fn is_word(word: &[u8], command: Command) -> bool
    ensures { result ≡ bytes_eq word.now (word_of command) }
{
    let own = command.word().as_bytes();
    word.first() == own.first() && word == own
}

/// Where the one command that may have this word stands among all of them, in their order. It says only
/// where to look first, so no clause speaks of it.
fn likely_place(word: &[u8]) -> usize {
    let command = match word {
        [b'b', ..] => Command::Begin,
        [b't', b'r', ..] => Command::Try,
        [b'k', ..] => Command::Kept,
        [b's', b'a', b'y', b't', ..] => Command::SayTo,
        [b's', b'a', ..] => Command::Say,
        [b't', ..] => Command::Take,
        [b'h', b'e', ..] => Command::Hear,
        [b'e', ..] => Command::Enter,
        [b'l', ..] => Command::Leave,
        [b's', b'o', ..] => Command::Soften,
        [b'f', ..] => Command::Fall,
        [b'r', ..] => Command::Rise,
        [b's', ..] => Command::Switch,
        [b'i', ..] => Command::Inside,
        [b'w', ..] => Command::Waiting,
        _ => Command::Holding,
    };
    command as usize
}

/// The command at a place that is counted from 0.
fn command_at(commands: &[Command], place: usize) -> Option<Command>
    ensures { result ≡ slice_get commands.now place }
{
    commands.get(place).copied()
}

/// The command at this place, where the word is its own.
fn if_named(commands: &[Command], place: usize, word: &[u8]) -> Option<Command>
    ensures { IfSome result (λ command. named commands.now word.now ≡ Ok command) }
{
    let command = command_at(commands, place)?;
    if is_word(word, command) {
        Some(command)
    } else {
        None
    }
}

/// The command whose word it is, if it is one of these. It goes over them.
fn scan(commands: &[Command], word: &[u8]) -> Result<Command, LineFault>
    ensures { result ≡ named commands.now word.now }
{
    for command in commands {
        if is_word(word, *command) {
            return Ok(*command);
        }
    }
    Err(LineFault::Word)
}

/// The command whose word it is, if it is one of these.
pub(crate) fn named(commands: &[Command], word: &[u8]) -> Result<Command, LineFault>
    ensures { result ≡ named commands.now word.now }
{
    match if_named(commands, likely_place(word), word) {
        Some(command) => Ok(command),
        None => scan(commands, word),
    }
}

// Reading a command.

ghost use Rattle.std.specs.Prelude.{◌≡◌, IfOk, string_bytes};
ghost use Rattle.client_commands.specs.Commands.{Reads, command_text};

use crate::commands::{Command, Entry, Waiting};
use lock_messages::{Mode, ResourceName};
use std::alloc::{AllocError, Global};
use std::str;

/// The most bytes of a command's line. A longer line is no command.
pub const MAX_COMMAND_LEN: usize = 128;

fn mode_of(word: &str) -> Option<Mode> {
    match word {
        "read" => Some(Mode::Read),
        "write" => Some(Mode::Write),
        _ => None,
    }
}

/// The place that a word as `b2` names.
fn place_of(word: &str) -> Option<u8> {
    word.strip_prefix("b")?.parse::<u8>().ok()
}

/// The entry of the words after its mode.
fn entry_of(mode: Mode, tries: bool, rest: &str) -> Option<Entry> {
    let mut words = rest.split(' ');
    let resource = ResourceName::of(words.next()?.as_bytes())?;
    let mut word = words.next();
    let mut place = 1;
    if let Some(named) = word.and_then(|text| place_of(text)) {
        place = named;
        word = words.next();
    }
    let waiting = match word {
        None if tries => Waiting::Never,
        None => Waiting::Long,
        Some(_) => Waiting::Within(words.next()?.parse::<u32>().ok()?),
    };
    Some(Entry {
        mode,
        resource,
        place,
        waiting,
    })
}

/// The command that a line may be. Whether the line is the command's own, the caller compares.
fn candidate(line: &str) -> Option<Command> {
    match line {
        "soften" => return Some(Command::Soften),
        "leave" => return Some(Command::Leave),
        "status" => return Some(Command::Status),
        _ => {}
    }
    let (tries, asked) = match line.strip_prefix("try ") {
        Some(asked) => (true, asked),
        None => (false, line),
    };
    let (word, rest) = asked.split_once(' ')?;
    let entry = entry_of(mode_of(word)?, tries, rest)?;
    Some(Command::Enter(entry))
}

/// The one line of a command. The only error is running out of memory.
fn line_of(alloc: Global, command: &Command) -> Result<String, AllocError>
    ensures { IfOk result (λ line. string_bytes line ≡ command_text command.now) }
{
    format!(in alloc; "{command}")
}

/// The command of a line, which is given without its line feed, or `None` if it is the line of no command.
///
/// The only error is running out of memory.
pub fn read_command(alloc: Global, line: &[u8]) -> Result<Option<Command>, AllocError>
    ensures { IfOk result (λ o. Reads line.now o) }
{
    if line.len() > MAX_COMMAND_LEN {
        return Ok(None);
    }
    let Ok(text) = str::from_utf8(line) else {
        return Ok(None);
    };
    let Some(command) = candidate(text) else {
        return Ok(None);
    };
    let spelled = line_of(alloc, &command)?;
    if spelled.as_bytes() == line {
        return Ok(Some(command));
    }
    Ok(None)
}

// Hearing what is said of an input.

ghost use Rattle.std.specs.Prelude.{IfSome};
ghost use Rattle.operator_cli.specs.Outputs.{IsServed};

use explanations::Explainer;
use line_streams::{LineReader, MAX_READS};
use lock_messages::MAX_NODES;
use operator_cli::{AuditFault, Onlooker, Order, ServeFault, serve_watched};
use std::alloc::Global;
use std::io;
use test_outcomes::{Failure, Outcome, check_row};
use test_support::{SETTINGS, plain_pairs};
use world_settings::{Command, Policies, SettingsFault, StartFault, read_start};

/// The command, unless it is a run of all parts, which `serve_watched` doesn't take.
fn served_by(command: Command) -> Option<Command>
    ensures { IfSome result (λ c. IsServed c) }
{
    match command {
        Command::Script => Some(Command::Script),
        Command::Audit => Some(Command::Audit),
        Command::Ballot => Some(Command::Ballot),
        Command::Run { .. } => None,
    }
}

/// The status of a command.
fn status_of(came: Result<u8, ServeFault>) -> Result<u8, Failure> {
    match came {
        Ok(status) => Ok(status),
        Err(ServeFault::Memory | ServeFault::Write) => Err(Failure::Memory),
        Err(ServeFault::Audit(AuditFault::Memory | AuditFault::Write)) => Err(Failure::Memory),
        Err(ServeFault::Read | ServeFault::Audit(_)) => Err(Failure::Wrong(0)),
    }
}

/// Shows why the settings of a run are refused, if they are: a run's lines are none.
fn see_start<V: Onlooker>(
    alloc: Global,
    command: Command,
    input: &str,
    onlooker: &mut V,
) -> Result<u8, Failure> {
    let mut source = LineReader::new(input.as_bytes(), MAX_READS);
    let mut head = Vec::new(alloc);
    match read_start(alloc, command, &mut source, &mut head) {
        Ok(start) => onlooker.see_settings(head.as_slice(), &start.settings),
        Err(StartFault::Settings(SettingsFault::Memory)) => return Err(Failure::Memory),
        Err(StartFault::Settings(fault)) => onlooker.see_refused(head.as_slice(), fault),
        Err(StartFault::Read) => return Err(Failure::Wrong(0)),
    }
    Ok(0)
}

/// Serves a command with an input, and shows what is met; answers the status.
fn see_input<V: Onlooker>(
    alloc: Global,
    command: Command,
    input: &str,
    onlooker: &mut V,
) -> Result<u8, Failure> {
    let Some(command) = served_by(command) else {
        return see_start(alloc, command, input, onlooker);
    };
    let pairs = plain_pairs(alloc, MAX_NODES)?;
    let order = Order {
        command,
        policies: Policies { pairs },
    };
    let came = serve_watched(alloc, order, input.as_bytes(), &mut io::sink(), onlooker);
    status_of(came)
}

/// Room for all that is said of an input, since a writer that fails hears less.
const ROOM: usize = 65_536;

/// Hears what is said of an input of a command; answers the status.
fn hear(alloc: Global, command: Command, input: &str, words: &mut Vec<u8>) -> Result<u8, Failure> {
    let mut explainer = Explainer::new(alloc, command, words);
    let status = see_input(alloc, command, input, &mut explainer)?;
    if explainer.fell_short() {
        return Err(Failure::Memory);
    }
    Ok(status)
}

/// Whether memory was refused for the settings: then this is said of them, or nothing where the input wasn't read.
fn is_without_settings(status: u8, words: &[u8]) -> bool {
    status == 2 && (words.is_empty() || words.starts_with(b"settings fault 925".as_slice()))
}

/// What is said of an input of a command.
fn heard(alloc: Global, command: Command, input: &str) -> Result<Vec<u8>, Failure> {
    let mut words = Vec::with_capacity(alloc, ROOM)?;
    let status = hear(alloc, command, input, &mut words)?;
    if is_without_settings(status, words.as_slice()) {
        return Err(Failure::Memory);
    }
    Ok(words)
}

/// Hears what is said of an input, and compares it.
pub(crate) fn says(
    alloc: Global,
    row: usize,
    command: Command,
    input: &str,
    words: &str,
) -> Outcome {
    let said = heard(alloc, command, input)?;
    check_row(said.as_slice() == words.as_bytes(), row)
}

/// Hears what is said of lines behind good settings.
pub(crate) fn says_of_lines(
    alloc: Global,
    row: usize,
    command: Command,
    lines: &str,
    words: &str,
) -> Outcome {
    let mut input = String::from_str(alloc, SETTINGS)?;
    input.push_str(lines)?;
    says(alloc, row, command, input.as_str(), words)
}

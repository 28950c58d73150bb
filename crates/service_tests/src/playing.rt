// Running a script through `serve`.

ghost use Rattle.std.specs.Prelude.{IfSome};
ghost use Rattle.lock_messages.specs.declared.ids.TheConstants.{MAX_NODES};
ghost use Rattle.operator_cli.specs.Outputs.{IsServed};

use journal_audit::AuditFault;
use lock_messages::MAX_NODES;
use operator_cli::{Order, ServeFault, serve};
use std::alloc::Global;
use std::io::{Read, Write};
use test_outcomes::{Failure, Outcome, check_row};
use test_support::{SETTINGS, plain_pairs};
use world_settings::{Command, Policies};

/// The command, unless it is a run of all parts, which `serve` doesn't take.
fn served_by(command: Command) -> Option<Command>
    ensures { IfSome result (λ c. IsServed c) }
{
    match command {
        Command::Script => Some(Command::Script),
        Command::Audit => Some(Command::Audit),
        Command::Ballot => Some(Command::Ballot),
        Command::Run { .. } => None,
    }
}

/// Serves a command with what a reader gives.
fn serve_command<R: Read + Drop, W: Write>(
    alloc: Global,
    command: Command,
    reader: R,
    writer: &mut W,
) -> Result<u8, ServeFault> {
    let Some(command) = served_by(command) else {
        return Err(ServeFault::Read);
    };
    let Ok(pairs) = plain_pairs(alloc, MAX_NODES) else {
        return Err(ServeFault::Memory);
    };
    let order = Order {
        command,
        policies: Policies { pairs },
    };
    serve(alloc, order, reader, writer)
}

/// Serves the script that a reader gives.
pub(crate) fn serve_script<R: Read + Drop, W: Write>(
    alloc: Global,
    reader: R,
    writer: &mut W,
) -> Result<u8, ServeFault> {
    serve_command(alloc, Command::Script, reader, writer)
}

/// The status of a command that wrote these bytes into a `Vec`, which takes what is written unless memory is
/// refused.
fn status_of(out: &[u8], came: Result<u8, ServeFault>) -> Result<u8, Failure> {
    match came {
        Ok(2) if out == b"settings fault 925\n".as_slice() => Err(Failure::Memory),
        Ok(status) => Ok(status),
        Err(ServeFault::Memory | ServeFault::Write) => Err(Failure::Memory),
        Err(ServeFault::Audit(AuditFault::Memory | AuditFault::Write)) => Err(Failure::Memory),
        Err(ServeFault::Read | ServeFault::Audit(_)) => Err(Failure::Wrong(0)),
    }
}

/// What the bytes of a reader print as a script, and the status.
pub(crate) fn serves_reader<R: Read + Drop>(
    alloc: Global,
    reader: R,
    out: &mut Vec<u8>,
) -> Result<u8, Failure> {
    let came = serve_script(alloc, reader, out);
    status_of(out, came)
}

/// Whether the bytes are these parts, one behind the other.
fn is_made_of(bytes: &[u8], parts: &[&str]) -> bool {
    let mut rest = bytes;
    let mut right = true;
    for part in parts {
        match rest.strip_prefix(part.as_bytes()) {
            Some(next) => rest = next,
            None => right = false,
        }
    }
    right && rest.is_empty()
}

/// What is wanted of a command, in a row of a table: what it prints, in parts, and its status.
#[derive(Clone, Copy)]
struct Wanted<'a> {
    row: usize,
    parts: &'a [&'a str],
    status: u8,
}

fn is_wanted(out: &[u8], came: Result<u8, ServeFault>, wanted: &Wanted<'_>) -> Outcome {
    let status = status_of(out, came)?;
    let right = status == wanted.status && is_made_of(out, wanted.parts);
    check_row(right, wanted.row)
}

/// The parts, one behind the other.
fn joined(alloc: Global, parts: &[&str]) -> Result<String, Failure> {
    let mut text = String::new(alloc);
    for part in parts {
        text.push_str(part)?;
    }
    Ok(text)
}

/// So many times the text.
pub(crate) fn repeated(alloc: Global, text: &str, count: usize) -> Result<String, Failure> {
    let mut repeated = String::new(alloc);
    for _ in 0..count {
        repeated.push_str(text)?;
    }
    Ok(repeated)
}

/// Serves a command of a table with the input of these parts, and compares what it prints, in parts, and its
/// status.
pub(crate) fn answers(
    alloc: Global,
    row: usize,
    command: Command,
    input: &[&str],
    parts: &[&str],
    status: u8,
) -> Outcome {
    let input = joined(alloc, input)?;
    let mut out = Vec::new(alloc);
    let came = serve_command(alloc, command, input.as_bytes(), &mut out);
    is_wanted(&out, came, &Wanted { row, parts, status })
}

/// Serves a command with what each row has first, behind two parts and before one; compares what it prints and
/// its status.
pub(crate) fn answers_each(
    alloc: Global,
    command: Command,
    around: [&str; 3],
    rows: &[(&str, &str, u8)],
) -> Outcome {
    let [head, before, behind] = around;
    for (row, (told, expected, status)) in rows.iter().enumerate() {
        let input = [head, before, *told, behind];
        answers(alloc, row, command, &input, &[*expected], *status)?;
    }
    Ok(())
}

/// Runs a script, and compares what it prints and its status.
pub(crate) fn plays(alloc: Global, script: &[&str], expected: &[&str], status: u8) -> Outcome {
    answers(alloc, 0, Command::Script, script, expected, status)
}

/// Runs a script of any bytes.
pub(crate) fn plays_bytes(alloc: Global, script: &[u8], expected: &str, status: u8) -> Outcome {
    let mut out = Vec::new(alloc);
    let came = serve_script(alloc, script, &mut out);
    let wanted = Wanted {
        row: 0,
        parts: &[expected],
        status,
    };
    is_wanted(&out, came, &wanted)
}

/// Runs each of these lines by itself behind good settings: it is bad, by this number.
pub(crate) fn each_is_bad(alloc: Global, number: &str, lines: &[&str]) -> Outcome {
    let told = ["line 1 fault ", number, "\n"];
    for (row, line) in lines.iter().enumerate() {
        answers(alloc, row, Command::Script, &[SETTINGS, *line], &told, 1)?;
    }
    Ok(())
}

/// Runs settings, each by itself: they are refused, by this number.
pub(crate) fn each_is_refused(alloc: Global, number: &str, heads: &[&str]) -> Outcome {
    let told = ["settings fault ", number, "\n"];
    for (row, head) in heads.iter().enumerate() {
        answers(alloc, row, Command::Script, &[*head], &told, 2)?;
    }
    Ok(())
}

// Why settings are refused, in words.

use crate::ballots::{number_at, push_ballot_fault, push_wrong_wish};
use crate::faulty::{push_unknown_key, push_wrong_value};
use fault_numbers::meaning_of;
use std::alloc::{AllocError, Global};
use std::str;
use toml::Table;
use world_settings::{Command, SettingsFault};

/// The number of the line in which the byte at this place stands.
fn line_of(head: &[u8], place: usize) -> usize {
    let before = head.iter().take(place);
    before
        .filter(|byte| **byte == b'\n')
        .count()
        .saturating_add(1)
}

/// Whether a line is the line of dashes, but for a carriage return behind it.
fn is_dashes_with_return(line: &[u8]) -> bool {
    line == b"---\r".as_slice()
}

/// Adds why a text is not a TOML document, and in which line.
fn push_no_document(text: &mut String, alloc: Global, head: &[u8]) -> Result<(), AllocError> {
    let Ok(document) = str::from_utf8(head) else {
        return text.push_str(": not UTF-8 text");
    };
    let Err(error) = toml::table_from_str(alloc, document) else {
        return Ok(());
    };
    if error.is_memory() {
        return Err(AllocError);
    }
    let line = line_of(head, error.span().map_or(0, |span| span.start));
    let why = error.message();
    write!(text, ": input line {line}: {why}")
}

/// Adds a hint where the line of dashes ends with a carriage return.
fn push_return_hint(text: &mut String, head: &[u8]) -> Result<(), AllocError> {
    let mut lines = head.split(|byte| *byte == b'\n');
    match lines.position(|line| is_dashes_with_return(line)) {
        Some(before) => {
            let line = before.saturating_add(1);
            write!(
                text,
                "\nhint: input line {line} is `---` with a carriage return: lines end with a line feed alone"
            )
        }
        None => Ok(()),
    }
}

/// Adds how the weather of settings is more than a thousand.
fn push_weather(text: &mut String, table: &Table) -> Result<(), AllocError> {
    let (lose, twice, late) = (
        number_at(table, "lose"),
        number_at(table, "twice"),
        number_at(table, "late"),
    );
    write!(text, ": {lose} + {twice} + {late}")
}

/// Adds which key, ballot or wish of a document is at fault, and why.
fn push_at(
    alloc: Global,
    text: &mut String,
    command: Command,
    table: &Table,
    fault: SettingsFault,
) -> Result<(), AllocError> {
    let meaning = meaning_of(fault.number());
    match fault {
        SettingsFault::Value => push_wrong_value(text, command, table),
        SettingsFault::Wish(_) => push_wrong_wish(alloc, text, table),
        SettingsFault::Ballot(why) => push_ballot_fault(alloc, text, table, why),
        SettingsFault::UnknownKey => {
            text.push_str(meaning)?;
            push_unknown_key(text, table)
        }
        SettingsFault::Weather(_) => {
            text.push_str(meaning)?;
            push_weather(text, table)
        }
        SettingsFault::NoEnd | SettingsFault::NoDocument | SettingsFault::Memory => {
            text.push_str(meaning)
        }
    }
}

/// Adds how the line of a settings fault begins. If the ballots are asked for, a refused one is an answer.
fn push_front(text: &mut String, command: Command, fault: SettingsFault) -> Result<(), AllocError> {
    let number = fault.number();
    match fault {
        SettingsFault::Ballot(_) if command == Command::Ballot => {
            write!(text, "refused {number}: ")
        }
        _ => write!(text, "settings fault {number}: "),
    }
}

/// The document of a head, where it is one.
fn table_of(alloc: Global, head: &[u8]) -> Option<Table> {
    let Ok(document) = str::from_utf8(head) else {
        return None;
    };
    toml::table_from_str(alloc, document).ok()
}

/// Adds the line that says why the settings of a command are refused, and of what.
pub fn push_settings_fault(
    alloc: Global,
    text: &mut String,
    command: Command,
    head: &[u8],
    fault: SettingsFault,
) -> Result<(), AllocError> {
    push_front(text, command, fault)?;
    match fault {
        SettingsFault::NoEnd => {
            text.push_str(meaning_of(fault.number()))?;
            push_return_hint(text, head)?;
        }
        SettingsFault::NoDocument => {
            text.push_str(meaning_of(fault.number()))?;
            push_no_document(text, alloc, head)?;
        }
        SettingsFault::Memory => text.push_str(meaning_of(fault.number()))?,
        SettingsFault::UnknownKey
        | SettingsFault::Value
        | SettingsFault::Ballot(_)
        | SettingsFault::Weather(_)
        | SettingsFault::Wish(_) => {
            match table_of(alloc, head) {
                Some(table) => push_at(alloc, text, command, &table, fault)?,
                None => return Err(AllocError),
            }
        }
    }
    text.push_str("\n")
}

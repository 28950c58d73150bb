// Which key of the settings is at fault.

ghost use Rattle.std.specs.Prelude.{◌≡◌, option_map};
ghost use Rattle.toml.specs.Data.{get_member};
ghost use Rattle.toml.specs.View.{view, table_view};
ghost use Rattle.explanations.specs.Faulty.{wrong_in, wrong_number};

use event_lines::MAX_WISHES;
use lock_messages::MAX_CLIENTS;
use std::alloc::AllocError;
use toml::{Table, Value};
use world_settings::Command;

/// What is wrong with the value at a key.
#[derive(Clone, Copy)]
enum Wrong {
    /// It is needed, and isn't there.
    Missing,
    /// It isn't a number in this range.
    NoNumber(u16, u16),
    /// It isn't the number of a weather.
    NoSeed,
    /// It isn't a list of votes.
    NoVotes,
    /// It isn't a list of ballots.
    NoBallots,
    /// It isn't a list of wishes.
    NoWishes,
}

/// Adds what is wrong with the value at a key.
fn push_wrong(text: &mut String, key: &str, wrong: Wrong) -> Result<(), AllocError> {
    match wrong {
        Wrong::Missing => write!(text, "{key} is missing"),
        Wrong::NoNumber(least, most) => write!(
            text,
            "{key} must be a number from {least} to {most}"
        ),
        Wrong::NoSeed => write!(text, "{key} must be a number from 0 to {}", i64::MAX),
        Wrong::NoVotes => write!(text, "{key} must be a list of numbers from 0 to 255"),
        Wrong::NoBallots => write!(
            text,
            "{key} must be a list of tables with votes, read and write"
        ),
        Wrong::NoWishes => write!(text, "{key} must be a list of at most {MAX_WISHES} texts"),
    }
}

/// What is wrong with an integer, which is to be in this range.
fn wrong_in(value: &Value, least: u16, most: u16) -> Option<Wrong>
    ensures { result ≡ wrong_in least most (view value.now) }
{
    let Some(number) = value.as_integer() else {
        return Some(Wrong::NoNumber(least, most));
    };
    if number < least as i64 || number > most as i64 {
        return Some(Wrong::NoNumber(least, most));
    }
    None
}

/// The value at a key.
fn value_at<'a>(table: &'a Table, key: &str) -> Option<&'a Value>
    ensures { option_map (λ v. view v.now) result ≡ get_member key.now (table_view table.now) }
{
    table.get(key)
}

/// What is wrong with the integer at a key, which may be missing where it isn't needed.
fn wrong_number(table: &Table, key: &str, needed: bool, least: u16, most: u16) -> Option<Wrong>
    ensures { result ≡ wrong_number needed least most (get_member key.now (table_view table.now)) }
{
    match value_at(table, key) {
        Some(value) => wrong_in(value, least, most),
        None if needed => Some(Wrong::Missing),
        None => None,
    }
}

/// What is wrong with the number of the weather.
fn wrong_seed(table: &Table) -> Option<Wrong> {
    let value = value_at(table, "seed")?;
    match value.as_integer() {
        Some(number) if number >= 0 => None,
        _ => Some(Wrong::NoSeed),
    }
}

/// Whether a value is a number of votes.
fn is_vote(value: &Value) -> bool {
    match value.as_integer() {
        Some(number) => 0 <= number && number <= 255,
        None => false,
    }
}

/// What is wrong with the votes of each node.
fn wrong_votes(table: &Table) -> Option<Wrong> {
    match table.get("votes") {
        None => Some(Wrong::Missing),
        Some(Value::Array(values)) if values.iter().all(|value| is_vote(value)) => None,
        Some(_) => Some(Wrong::NoVotes),
    }
}

/// What is wrong with the wishes, before they are read.
fn wrong_wishes(table: &Table) -> Option<Wrong> {
    match table.get("wishes") {
        None => None,
        Some(Value::Array(values)) => {
            let are_texts = values.iter().all(|value| value.is_str());
            if are_texts && values.len() <= MAX_WISHES {
                None
            } else {
                Some(Wrong::NoWishes)
            }
        }
        Some(_) => Some(Wrong::NoWishes),
    }
}

/// The first key of the weather and the wishes whose value is wrong.
fn wrong_of_run(table: &Table) -> Option<(&'static str, Wrong)> {
    if let Some(wrong) = wrong_seed(table) {
        return Some(("seed", wrong));
    }
    if let Some(wrong) = wrong_number(table, "lose", false, 0, 1_000) {
        return Some(("lose", wrong));
    }
    if let Some(wrong) = wrong_number(table, "twice", false, 0, 1_000) {
        return Some(("twice", wrong));
    }
    if let Some(wrong) = wrong_number(table, "late", false, 0, 1_000) {
        return Some(("late", wrong));
    }
    wrong_wishes(table).map(|wrong| ("wishes", wrong))
}

/// The first key of a ballot whose value is wrong.
fn wrong_of_ballot(table: &Table) -> Option<(&'static str, Wrong)> {
    if let Some(wrong) = wrong_votes(table) {
        return Some(("votes", wrong));
    }
    if let Some(wrong) = wrong_number(table, "read", true, 0, 65_535) {
        return Some(("read", wrong));
    }
    wrong_number(table, "write", true, 0, 65_535).map(|wrong| ("write", wrong))
}

/// The first key of the world, but for its ballots, whose value is wrong.
fn wrong_of_world(command: Command, table: &Table) -> Option<(&'static str, Wrong)> {
    let needed = command != Command::Ballot;
    if let Some(wrong) = wrong_number(table, "problem", needed, 1, 2) {
        return Some(("problem", wrong));
    }
    wrong_number(table, "clients", needed, 1, MAX_CLIENTS as u16).map(|wrong| ("clients", wrong))
}

/// Whether a key is one of a ballot's.
fn tells_ballot(key: &str) -> bool {
    key == "votes" || key == "read" || key == "write"
}

/// Adds what is wrong with a table of `more`, the ballot at this place; answers whether anything is.
fn push_wrong_table(text: &mut String, place: usize, value: &Value) -> Result<bool, AllocError> {
    let Value::Table(table) = value else {
        write!(text, "ballot {place} must be a table")?;
        return Ok(true);
    };
    if let Some(key) = table.keys().find(|key| !tells_ballot(key.as_str())) {
        write!(text, "ballot {place} has the unknown key {key:?}")?;
        return Ok(true);
    }
    let Some((key, wrong)) = wrong_of_ballot(table) else {
        return Ok(false);
    };
    write!(text, "ballot {place}: ")?;
    push_wrong(text, key, wrong)?;
    Ok(true)
}

/// Adds what is wrong with `more`.
fn push_wrong_more(text: &mut String, table: &Table) -> Result<(), AllocError> {
    match table.get("more") {
        None => {}
        Some(Value::Array(values)) => {
            for (before, value) in values.iter().enumerate() {
                if push_wrong_table(text, before.saturating_add(2), value)? {
                    return Ok(());
                }
            }
        }
        Some(_) => push_wrong(text, "more", Wrong::NoBallots)?,
    }
    Ok(())
}

/// Adds which value of the settings is the first that is missing or wrong, in the order in which they are
/// judged.
pub fn push_wrong_value(
    text: &mut String,
    command: Command,
    table: &Table,
) -> Result<(), AllocError> {
    let first = wrong_of_run(table)
        .or_else(|| wrong_of_ballot(table))
        .or_else(|| wrong_of_world(command, table));
    match first {
        Some((key, wrong)) => push_wrong(text, key, wrong),
        None => push_wrong_more(text, table),
    }
}

/// Whether settings have this key.
fn is_known(key: &str) -> bool {
    tells_ballot(key)
        || key == "problem"
        || key == "clients"
        || key == "more"
        || key == "seed"
        || key == "lose"
        || key == "twice"
        || key == "late"
        || key == "wishes"
}

/// Adds the first key that settings don't have.
pub fn push_unknown_key(text: &mut String, table: &Table) -> Result<(), AllocError> {
    match table.keys().find(|key| !is_known(key.as_str())) {
        Some(key) => write!(text, ": {key:?}"),
        None => Ok(()),
    }
}

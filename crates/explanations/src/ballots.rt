// Which ballot of the settings is refused, and which wish, and why.

ghost use Rattle.std.specs.Prelude.{◌≡◌, Some};
ghost use Rattle.world_settings.specs.Settings.{wish_from};
ghost use Rattle.explanations.specs.Faulty.{wish_fault};

use crate::wrong_words::push_wrong_wish_word;
use event_lines::{LineFault, read_wish_among};
use fault_numbers::meaning_of;
use std::alloc::{AllocError, Global};
use toml::{Table, Value};
use vote_weights::{Ballot, BallotFault, MAX_BALLOTS};

/// The integer at a key, which was judged to be one of so many bits.
pub fn number_at(table: &Table, key: &str) -> u16 {
    match table.get(key) {
        Some(value) => value.as_integer().unwrap_or(0).clamp(0, 65_535) as u16,
        None => 0,
    }
}

/// The votes of a table's ballot, which were judged to be some.
fn votes_in(alloc: Global, table: &Table) -> Result<Vec<u8>, AllocError> {
    let mut votes = Vec::new(alloc);
    let Some(Value::Array(values)) = table.get("votes") else {
        return Ok(votes);
    };
    for value in values {
        votes.push(value.as_integer().unwrap_or(0).clamp(0, 255) as u8)?;
    }
    Ok(votes)
}

/// Whether the numbers of a table make no ballot.
fn is_refused(alloc: Global, table: &Table) -> Result<bool, AllocError> {
    let votes = votes_in(alloc, table)?;
    let (read, write) = (number_at(table, "read"), number_at(table, "write"));
    Ok(Ballot::of(votes.as_slice(), read, write).is_err())
}

/// The first ballot that is refused: its place, and its table.
fn refused_in<'a>(
    alloc: Global,
    table: &'a Table,
) -> Result<Option<(usize, &'a Table)>, AllocError> {
    if is_refused(alloc, table)? {
        return Ok(Some((1, table)));
    }
    let Some(Value::Array(values)) = table.get("more") else {
        return Ok(None);
    };
    for (before, value) in values.iter().enumerate() {
        if let Value::Table(one) = value {
            if is_refused(alloc, one)? {
                return Ok(Some((before.saturating_add(2), one)));
            }
        }
    }
    Ok(None)
}

/// Adds the numbers of a table's ballot that it is refused for.
fn push_numbers(
    alloc: Global,
    text: &mut String,
    table: &Table,
    fault: BallotFault,
) -> Result<(), AllocError> {
    let votes = votes_in(alloc, table)?;
    let total = votes
        .iter()
        .fold(0_u32, |sum, votes| sum.saturating_add(u32::from(*votes)));
    let (read, write) = (number_at(table, "read"), number_at(table, "write"));
    match fault {
        BallotFault::TooManyNodes => write!(text, ": votes has {}", votes.len()),
        BallotFault::OverTotal => write!(
            text,
            ": read is {read}, write is {write}, and the total is {total}"
        ),
        BallotFault::ReadsMissWrites => {
            write!(text, ": {read} + {write} is not greater than {total}")
        }
        BallotFault::WritesMiss => write!(text, ": 2 * {write} is not greater than {total}"),
        BallotFault::NoNode
        | BallotFault::BallotsMiss(..)
        | BallotFault::NoBallot
        | BallotFault::TooManyBallots => Ok(()),
    }
}

/// Adds why the ballots of settings are refused, and at which place, if there are several.
pub fn push_ballot_fault(
    alloc: Global,
    text: &mut String,
    table: &Table,
    fault: BallotFault,
) -> Result<(), AllocError> {
    text.push_str(meaning_of(fault.number()))?;
    if let BallotFault::BallotsMiss(first, second) = fault {
        return write!(text, ": those at places {first} and {second}");
    }
    let Some((place, ballot)) = refused_in(alloc, table)? else {
        return Ok(());
    };
    push_numbers(alloc, text, ballot, fault)?;
    if table.get("more").is_none() {
        return Ok(());
    }
    write!(text, " (ballot {place})")
}

/// How many ballots the settings have.
fn count_of(table: &Table) -> usize {
    match table.get("more") {
        Some(Value::Array(values)) => values.len().saturating_add(1),
        _ => 1,
    }
}

/// How many clients the settings have; as many as there may be where they don't say.
fn clients_of(table: &Table) -> u16 {
    match table.get("clients") {
        Some(_) => number_at(table, "clients"),
        None => 1_024,
    }
}

/// What is wrong with the text of a wish, among so many clients and ballots.
fn wrong_wish(clients: u16, ballots: usize, text: &str) -> Option<LineFault>
    ensures { result ≡ wish_fault (wish_from clients ballots (Some text.now)) }
{
    match read_wish_among(clients, text.as_bytes()) {
        Ok(wish) if wish.place as usize <= ballots => None,
        Ok(_) => Some(LineFault::Number),
        Err(fault) => Some(fault),
    }
}

/// Adds what is wrong with a wish of the settings: its first wrong word, or what the fault's number means.
fn push_wish_fault(
    alloc: Global,
    text: &mut String,
    table: &Table,
    wish: &str,
    fault: LineFault,
) -> Result<(), AllocError> {
    let ballots = count_of(table).clamp(1, MAX_BALLOTS as usize) as u8;
    if push_wrong_wish_word(alloc, text, clients_of(table), ballots, wish)? {
        return Ok(());
    }
    text.push_str(meaning_of(fault.number()))
}

/// Adds which wish is the first that is wrong, and why.
pub fn push_wrong_wish(alloc: Global, text: &mut String, table: &Table) -> Result<(), AllocError> {
    let Some(Value::Array(values)) = table.get("wishes") else {
        return Ok(());
    };
    let (clients, ballots) = (clients_of(table), count_of(table));
    for (before, value) in values.iter().enumerate() {
        let wish = value.as_str().unwrap_or("");
        if let Some(fault) = wrong_wish(clients, ballots, wish) {
            write!(text, "wish {}: ", before.saturating_add(1))?;
            return push_wish_fault(alloc, text, table, wish, fault);
        }
    }
    Ok(())
}

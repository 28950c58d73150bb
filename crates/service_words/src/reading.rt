// What is read of the words that were found of a command.

ghost use Rattle.std.specs.Prelude.{◌≡◌, true, false, map, codes};
ghost use Rattle.clap.specs.Words.{rows_of, first_of, all_of, found_of};
ghost use Rattle.service_words.specs.Readings.{IsServiceName, ReadsNumber, ReadsProblem, ReadsJournal, ReadsPlace, ReadsPlaceAt, ReadsPipes, ReadsEvery, IsInitWords, ReadsNode, ReadsClient, ReadsReap, ReadsSwitch, ReadsService};

use crate::numbers::{client_in, node_in, problem_in, seconds_in};
use crate::{
    ClientWords, InitWords, Journaling, Misuse, NodeWords, ReapWords, ServiceRequest, SwitchWords,
};
use clap::ArgMatches;
use clap_arguments::{has_flag, option_at, word_at};
use lock_messages::{ClientId, NodeId};
use lock_model::Problem;

/// The words of a client without its flags: its number, if it is there, and the directory.
#[derive(Clone, Copy)]
struct Place<'a> {
    number: Option<ClientId>,
    folder: &'a str,
}

/// The number of the node.
fn number_at(found: &ArgMatches) -> Result<NodeId, Misuse>
    ensures { ReadsNumber (first_of (codes "number") (rows_of (found_of found.now))) result }
{
    match option_at(found, "number") {
        Some(text) => node_in(text).ok_or(Misuse::NodeNumber),
        None => Err(Misuse::NodeNumber),
    }
}

/// The problem that the node is to take.
fn problem_at(found: &ArgMatches) -> Result<Problem, Misuse>
    ensures { ReadsProblem (first_of (codes "problem") (rows_of (found_of found.now))) result }
{
    match option_at(found, "problem") {
        Some(text) => problem_in(text).ok_or(Misuse::Problem),
        None => Err(Misuse::Problem),
    }
}

/// Whether a journal is written.
fn journal_at(found: &ArgMatches) -> Result<Journaling, Misuse>
    ensures { ReadsJournal (rows_of (found_of found.now)) result }
{
    let none = has_flag(found, "no-journal");
    let synced = has_flag(found, "sync-journal");
    if none && synced {
        return Err(Misuse::TwoJournals);
    }
    if none {
        return Ok(Journaling::None);
    }
    if synced {
        return Ok(Journaling::Synced);
    }
    Ok(Journaling::Written)
}

/// The place of a client in these words.
fn place_in<'a>(words: &[&'a str]) -> Result<Place<'a>, Misuse>
    ensures { ReadsPlace (map (λ w. w.now) words.now) result }
{
    match words {
        [folder] => Ok(Place {
            number: None,
            folder: *folder,
        }),
        [text, folder] => match client_in(*text) {
            Some(number) => Ok(Place {
                number: Some(number),
                folder: *folder,
            }),
            None => Err(Misuse::ClientNumber),
        },
        _ => Err(Misuse::ClientWords),
    }
}

/// The number of the client, if it is there, and the directory.
fn place_at<'a>(found: &ArgMatches<'a>) -> Result<Place<'a>, Misuse>
    ensures { ReadsPlaceAt (all_of (codes "words") (rows_of (found_of found.now))) result }
{
    match found.get_strs("words") {
        Some(words) => place_in(words),
        None => Err(Misuse::ClientWords),
    }
}

/// Whether lines come and go on pipes. Then both files have to be there, and else none.
fn pipes_at(found: &ArgMatches) -> Result<bool, Misuse>
    ensures { ReadsPipes (rows_of (found_of found.now)) result }
{
    let commands = option_at(found, "commands");
    let answers = option_at(found, "answers");
    if has_flag(found, "pipes") {
        if commands.is_none() || answers.is_none() {
            return Err(Misuse::PipesAlone);
        }
        return Ok(true);
    }
    if commands.is_some() || answers.is_some() {
        return Err(Misuse::FilesAlone);
    }
    Ok(false)
}

/// After how many seconds a reaper looks again.
fn every_at(found: &ArgMatches) -> Result<Option<u32>, Misuse>
    ensures { ReadsEvery (first_of (codes "every") (rows_of (found_of found.now))) result }
{
    let Some(text) = option_at(found, "every") else {
        return Ok(None);
    };
    match seconds_in(text) {
        Some(seconds) => Ok(Some(seconds)),
        None => Err(Misuse::Seconds),
    }
}

/// The words of `init`.
fn init_of<'a>(found: &ArgMatches<'a>) -> InitWords<'a>
    ensures { IsInitWords (rows_of (found_of found.now)) result }
{
    InitWords {
        folder: word_at(found, "folder"),
        actors: option_at(found, "actors"),
        secret: option_at(found, "secret"),
    }
}

/// The words of `node`.
fn node_of<'a>(found: &ArgMatches<'a>) -> Result<NodeWords<'a>, Misuse>
    ensures { ReadsNode (rows_of (found_of found.now)) result }
{
    let number = number_at(found)?;
    let journal = journal_at(found)?;
    let folder = word_at(found, "folder");
    let pipes = has_flag(found, "pipes");
    Ok(NodeWords {
        number,
        folder,
        pipes,
        journal,
    })
}

/// The words of `client`.
fn client_of<'a>(found: &ArgMatches<'a>) -> Result<ClientWords<'a>, Misuse>
    ensures { ReadsClient (rows_of (found_of found.now)) result }
{
    let journal = journal_at(found)?;
    let pipes = pipes_at(found)?;
    let place = match place_at(found) {
        Ok(place) => place,
        Err(misuse) => return Err(misuse),
    };
    Ok(ClientWords {
        number: place.number,
        folder: place.folder,
        pipes,
        commands: option_at(found, "commands"),
        answers: option_at(found, "answers"),
        journal,
    })
}

/// The words of `reap`.
fn reap_of<'a>(found: &ArgMatches<'a>) -> Result<ReapWords<'a>, Misuse>
    ensures { ReadsReap (rows_of (found_of found.now)) result }
{
    let every = every_at(found)?;
    let folder = word_at(found, "folder");
    Ok(ReapWords { folder, every })
}

/// The words of `switch`.
fn switch_of<'a>(found: &ArgMatches<'a>) -> Result<SwitchWords<'a>, Misuse>
    ensures { ReadsSwitch (rows_of (found_of found.now)) result }
{
    let number = number_at(found)?;
    let problem = problem_at(found)?;
    let folder = word_at(found, "folder");
    let pipes = has_flag(found, "pipes");
    Ok(SwitchWords {
        number,
        problem,
        folder,
        pipes,
    })
}

/// Whether this is the name of a command of a service.
pub fn is_service_name(name: &str) -> bool
    ensures is { result ≡ true → IsServiceName name.now }
    ensures only { result ≡ false → IsServiceName name.now → ⊥ }
{
    name == "init"
        || name == "node"
        || name == "client"
        || name == "reap"
        || name == "status"
        || name == "switch"
}

/// What is asked for by the command of this name, of which this was found.
///
/// # Errors
///
/// The words are wrong in a way that `clap` does not see.
pub fn service_of<'a>(name: &str, found: &ArgMatches<'a>) -> Result<ServiceRequest<'a>, Misuse>
    requires { IsServiceName name.now }
    ensures { ReadsService name.now (rows_of (found_of found.now)) result }
{
    if name == "init" {
        return Ok(ServiceRequest::Init(init_of(found)));
    }
    if name == "node" {
        return match node_of(found) {
            Ok(words) => Ok(ServiceRequest::Node(words)),
            Err(misuse) => Err(misuse),
        };
    }
    if name == "client" {
        return match client_of(found) {
            Ok(words) => Ok(ServiceRequest::Client(words)),
            Err(misuse) => Err(misuse),
        };
    }
    if name == "reap" {
        return match reap_of(found) {
            Ok(words) => Ok(ServiceRequest::Reap(words)),
            Err(misuse) => Err(misuse),
        };
    }
    if name == "status" {
        return Ok(ServiceRequest::Status(word_at(found, "folder")));
    }
    match switch_of(found) {
        Ok(words) => Ok(ServiceRequest::Switch(words)),
        Err(misuse) => Err(misuse),
    }
}

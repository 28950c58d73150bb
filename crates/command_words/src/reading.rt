// The words that the program takes, and their help.

ghost use Rattle.std.specs.Prelude.{◌≡◌, IfOk, SomeIff, Bool, false, map, string_bytes, codes};
ghost use Rattle.clap.specs.Words.{app_of, shape_of, rule_of, rows_of, first_of, one_of, found_of, all_of, fault_of, subcommand_name_of, subcommand_rows_of};
ghost use Rattle.clap.specs.declared.builder.command.Command.TheViews.{out-Command};
ghost use Rattle.clap_arguments.specs.Arguments.{IsFlag, AreWords};
ghost use Rattle.service_words.specs.Numbers.{number_value};
ghost use Rattle.service_words.specs.Readings.{IsServiceName};
ghost use Rattle.command_words.specs.Words.{app, bare_app, top_app, explain_rule, command_shape, run_shape, explain_shape, merge_shape, record_shape, with_command, found_in, IsName, IsRequest, IsCommand, AsksBehind, RequestsBehind, Requests, IsNumber, TellsNumber, NamesOne, Parses, ReadsWords};

use crate::help::{
    ABOUT, AUDIT_HELP, BALLOT_HELP, EXPLAIN_HELP, MERGE_HELP, RECORD_HELP, RUN_HELP, SCRIPT_HELP,
};
use clap::{Arg, ArgMatches};
use clap_arguments::{
    below, flag, has_flag, option_at, with_argument, word_argument, word_at, words_argument,
    words_at,
};
use program_ends::{Unserved, unserved_by};
use service_words::{Misuse, ServiceRequest, is_service_name, service_of, with_services};
use std::alloc::{AllocError, Global};
use world_settings::Command;

/// The program without its commands and its flag.
fn bare_top<'a>(alloc: Global) -> clap::Command<'a>
    ensures app { app_of result ≡ bare_app }
    ensures local { (out-Command result).has_globals ≡ false }
{
    clap::Command::new(alloc, "rwvote")
        .version("0.1.0")
        .about(ABOUT)
        .subcommand_required(true)
}

/// The flag that asks for words.
fn explain_flag<'a>(alloc: Global) -> Arg<'a>
    ensures rule { rule_of result ≡ explain_rule }
    ensures local { result.global ≡ false }
{
    flag(
        alloc,
        "explain",
        "Also says on standard error, in words, what is refused and why",
    )
}

/// The program without its commands.
fn top<'a>(alloc: Global) -> Result<clap::Command<'a>, AllocError>
    ensures { IfOk result (λ c. app_of c ≡ top_app) }
{
    let with_flag = bare_top(alloc).arg(explain_flag(alloc))?;
    Ok(with_flag)
}

/// A command that takes the flag that asks for words.
fn explained_below<'a>(
    alloc: Global,
    name: &'a str,
    about: &'a str,
    help: &'a str,
) -> Result<clap::Command<'a>, AllocError>
    ensures shape { IfOk result (λ c. shape_of c ≡ command_shape name.entry.now) }
    ensures local { IfOk result (λ c. (out-Command c).has_globals ≡ false) }
{
    below(alloc, name, about, help, explain_flag(alloc))
}

/// The command that runs the service.
fn run_below<'a>(alloc: Global) -> Result<clap::Command<'a>, AllocError>
    ensures shape { IfOk result (λ c. shape_of c ≡ run_shape) }
    ensures local { IfOk result (λ c. (out-Command c).has_globals ≡ false) }
{
    let run = explained_below(alloc, "run", "Runs the service", RUN_HELP)?;
    let journal = flag(
        alloc,
        "journal",
        "Prints the settings and the journal instead, for `rwvote audit`",
    );
    with_argument(run, journal)
}

/// The command that explains a number.
fn explain_below<'a>(alloc: Global) -> Result<clap::Command<'a>, AllocError>
    ensures shape { IfOk result (λ c. shape_of c ≡ explain_shape) }
    ensures local { IfOk result (λ c. (out-Command c).has_globals ≡ false) }
{
    let number = word_argument(
        alloc,
        "number",
        "N",
        "A number that a program printed, 101 to 970",
    );
    let about = "Explains the number of a fault";
    below(alloc, "explain", about, EXPLAIN_HELP, number)
}

/// The command that merges journals.
fn merge_below<'a>(alloc: Global) -> Result<clap::Command<'a>, AllocError>
    ensures shape { IfOk result (λ c. shape_of c ≡ merge_shape) }
    ensures local { IfOk result (λ c. (out-Command c).has_globals ≡ false) }
{
    let judge = flag(
        alloc,
        "judge",
        "Prints no journal, but how many lines were merged",
    );
    let about = "Merges the journals of actors";
    let with_flag = below(alloc, "merge", about, MERGE_HELP, judge)?;
    let journals = words_argument(alloc, "journal", "JOURNAL", "The journal of an actor");
    with_argument(with_flag, journals)
}

/// The command that prints what a record's file holds.
fn record_below<'a>(alloc: Global) -> Result<clap::Command<'a>, AllocError>
    ensures shape { IfOk result (λ c. shape_of c ≡ record_shape) }
    ensures local { IfOk result (λ c. (out-Command c).has_globals ≡ false) }
{
    let file = word_argument(alloc, "file", "FILE", "The file of a record");
    let about = "Prints what a record's file holds";
    below(alloc, "record", about, RECORD_HELP, file)
}

/// The program with one more command, which takes the flag that asks for words.
fn with_command<'a>(
    alloc: Global,
    program: clap::Command<'a>,
    name: &'a str,
    about: &'a str,
    help: &'a str,
) -> Result<clap::Command<'a>, AllocError>
    ensures { IfOk result (λ c. app_of c ≡ with_command (app_of program.entry) name.entry.now) }
{
    let command = explained_below(alloc, name, about, help)?;
    let with_command = program.subcommand(command)?;
    Ok(with_command)
}

/// The words that the program takes.
fn words_taken<'a>(alloc: Global) -> Result<clap::Command<'a>, AllocError>
    ensures { IfOk result (λ c. app_of c ≡ app) }
{
    let bare = top(alloc)?;
    let with_script = with_command(alloc, bare, "script", "Plays a script", SCRIPT_HELP)?;
    let with_audit = with_command(alloc, with_script, "audit", "Judges a journal", AUDIT_HELP)?;
    let with_ballot = with_command(alloc, with_audit, "ballot", "Checks ballots", BALLOT_HELP)?;
    let run = run_below(alloc)?;
    let with_run = with_ballot.subcommand(run)?;
    let explain = explain_below(alloc)?;
    let with_explain = with_run.subcommand(explain)?;
    let merge = merge_below(alloc)?;
    let with_merge = with_explain.subcommand(merge)?;
    let viewer = record_below(alloc)?;
    let with_viewer = with_merge.subcommand(viewer)?;
    let with_all = with_services(alloc, with_viewer)?;
    Ok(with_all)
}

/// A command to serve.
#[derive(Clone, Copy)]
pub struct Asked {
    pub command: Command,
    /// Whether `--explain` is before the command.
    pub front: bool,
    /// Whether `--explain` is after the command.
    pub behind: bool,
}

/// Journals to merge.
#[derive(Drop)]
pub struct Merging {
    /// Whether they are only judged.
    pub judged: bool,
    /// The names of their files.
    pub names: Vec<String>,
}

/// What the words ask for.
#[derive(Drop)]
pub enum Request<'a> {
    /// To serve a command.
    Serve(Asked),
    /// To explain a number; `None` if the word is not a number below 65,536.
    Explain(Option<u16>),
    /// To merge journals.
    Merge(Merging),
    /// To print what the record's file of this name holds.
    Record(&'a str),
    /// To make a service, to run one of its actors, or to look at it.
    Service(ServiceRequest<'a>),
    /// Nothing: the words of a command of a service are wrong.
    Misused(Misuse),
}

/// The command of this name, and whether a run is asked for its journal.
fn command_of(name: &str, found: &ArgMatches) -> Command
    requires { IsName name.now }
    ensures { IsCommand name.now (rows_of (found_of found.now)) result }
{
    if name == "script" {
        return Command::Script;
    }
    if name == "audit" {
        return Command::Audit;
    }
    if name == "ballot" {
        return Command::Ballot;
    }
    Command::Run {
        journal: has_flag(found, "journal"),
    }
}

/// What is asked for by this name and what was found behind it.
fn asked_of(front: bool, name: &str, found: &ArgMatches) -> Asked
    requires { IsName name.now }
    ensures behind { AsksBehind name.now (rows_of (found_of found.now)) result }
    ensures front { result.front ≡ front }
{
    Asked {
        command: command_of(name, found),
        front,
        behind: has_flag(found, "explain"),
    }
}

/// The number that a text is.
fn number_in(text: &str) -> Option<u16>
    ensures { SomeIff result (IsNumber text.now) (number_value text.now) }
{
    text.parse::<u16>().ok()
}

/// The number that is to be explained.
fn number_at(found: &ArgMatches) -> Option<u16>
    ensures { TellsNumber (first_of (codes "number") (rows_of (found_of found.now))) result }
{
    match option_at(found, "number") {
        Some(text) => number_in(text),
        None => None,
    }
}

/// The journals that are to be merged.
fn merging_of(alloc: Global, found: &ArgMatches) -> Result<Merging, AllocError>
    ensures judged { IfOk result (λ m. IsFlag (one_of (codes "judge") (rows_of (found_of found.now))) m.judged) }
    ensures names { IfOk result (λ m. AreWords (all_of (codes "journal") (rows_of (found_of found.now))) (map string_bytes m.names.items)) }
{
    let judged = has_flag(found, "judge");
    let names = words_at(alloc, found, "journal")?;
    Ok(Merging { judged, names })
}

/// What is asked for by the command of a service.
fn service_request<'a>(name: &str, found: &ArgMatches<'a>) -> Request<'a>
    requires { IsServiceName name.now }
    ensures { (front : Bool) → RequestsBehind front name.now (rows_of (found_of found.now)) result }
{
    match service_of(name, found) {
        Ok(service) => Request::Service(service),
        Err(misuse) => Request::Misused(misuse),
    }
}

/// What is asked for by this name and what was found behind it.
fn request_of<'a>(
    alloc: Global,
    front: bool,
    name: &str,
    found: &ArgMatches<'a>,
) -> Result<Request<'a>, AllocError>
    requires { IsRequest name.now }
    ensures { IfOk result (λ r. RequestsBehind front name.now (rows_of (found_of found.now)) r) }
{
    if name == "explain" {
        return Ok(Request::Explain(number_at(found)));
    }
    if name == "merge" {
        let merging = merging_of(alloc, found)?;
        return Ok(Request::Merge(merging));
    }
    if name == "record" {
        return Ok(Request::Record(word_at(found, "file")));
    }
    if is_service_name(name) {
        return Ok(service_request(name, found));
    }
    Ok(Request::Serve(asked_of(front, name, found)))
}

/// What the words ask for.
fn request_in<'a>(alloc: Global, matches: &ArgMatches<'a>) -> Result<Request<'a>, AllocError>
    requires { NamesOne (subcommand_name_of matches.now) }
    ensures { IfOk result (λ r. Requests (subcommand_rows_of matches.now) (rows_of (found_of matches.now)) r) }
{
    let front = has_flag(matches, "explain");
    let Some((name, found)) = matches.subcommand() else {
        unreachable!()
    };
    request_of(alloc, front, name, found)
}

/// What `clap` makes of the words by a command.
fn parse_by<'a>(
    alloc: Global,
    command: clap::Command<'a>,
    words: &'a [String],
) -> Result<Request<'a>, clap::Error>
    requires { app_of command ≡ app }
    ensures { Parses (fault_of app (map string_bytes words.now)) (found_in (map string_bytes words.now)) result }
{
    match command.try_get_matches_from(words) {
        Ok(matches) => match request_in(alloc, &matches) {
            Ok(request) => Ok(request),
            Err(error) => Err(clap::Error::from(error)),
        },
        Err(error) => Err(error),
    }
}

/// What `clap` makes of the words.
fn parse<'a>(alloc: Global, words: &'a [String]) -> Result<Request<'a>, clap::Error>
    ensures { Parses (fault_of app (map string_bytes words.now)) (found_in (map string_bytes words.now)) result }
{
    match words_taken(alloc) {
        Ok(command) => parse_by(alloc, command, words),
        Err(error) => Err(clap::Error::from(error)),
    }
}

/// Reads the words, of which the first is the program's name. They are right where they name a command.
///
/// # Errors
///
/// What is to be said of words that name none: help or the version where they ask for it, what is wrong with them,
/// or that memory was refused.
#[tactic(auto, using(crate::proofs::WordFacts::unread_so))]
pub fn read_words<'a>(alloc: Global, words: &'a [String]) -> Result<Request<'a>, Unserved>
    ensures { ReadsWords (fault_of app (map string_bytes words.now)) (found_in (map string_bytes words.now)) result }
{
    match parse(alloc, words) {
        Ok(request) => Ok(request),
        Err(error) => Err(unserved_by(alloc, &error)),
    }
}

// The words that the program takes, and their help.

ghost use Rattle.std.specs.Prelude.{◌≡◌, IfOk, SomeIff, false, map, string_bytes, codes};
ghost use Rattle.clap.specs.Words.{app_of, rule_of, rows_of, found_of, first_of, fault_of};
ghost use Rattle.picture_cli.specs.Words.{app, bare_app, option_rule, rows_in, IsLine, line_number, TellsLine, TellsName, TellsPart, ReadsPart};

use clap::{Arg, ArgAction, ArgMatches};
use lock_messages::ResourceName;
use program_ends::{Unserved, unserved_by};
use run_picture::Part;
use std::alloc::{AllocError, Global};

const ABOUT: &str = "\
Draws a journal of the lock service as SVG: time goes down, a column for each node and client.";

const HELP: &str = "\
Draws a journal as SVG: time goes down, and each node and each client has a column.

USAGE
  rwdraw < FILE > X.svg                       Draws the journal in FILE.
  rwdraw --from 20 --to 80 < FILE > X.svg     Draws lines 20 to 80 alone.
  rwdraw --resource a < FILE > X.svg          Draws what concerns the resource `a` alone.
  rwvote run --journal < S | rwdraw > X.svg   Draws the run of the settings in S.

SETTINGS
  As for `rwvote audit`: see `rwvote audit --help`.

LINES
  The events of a journal, as for `rwvote audit`. A journal that is not sound is drawn up to the line
  that cannot follow. This line is marked, and the verdict goes to standard error.

PICTURE
  arrow         A message: from where it was sent to where it was taken or heard
  cross         A message that was never taken or heard
  hatched bar   A reader is inside, or a node has given its vote to a reader
  solid bar     The same of a writer
  grey column   The actor is down
  Point at a mark to see what it is, and its line.

EXIT STATUS
  0   The journal is sound.
  1   The journal is unsound, or `fault N` is on standard error.
  2   The settings (`settings fault N` on standard error) or the command-line arguments were refused.
  `rwvote explain N` says what N means.";

const WRONG_FROM: &str = "\
error: --from needs the number of a line, 1 or more

For more information, try '--help'.
";

const WRONG_TO: &str = "\
error: --to needs the number of a line, 1 or more

For more information, try '--help'.
";

const WRONG_ORDER: &str = "\
error: --to must not be less than --from

For more information, try '--help'.
";

const WRONG_RESOURCE: &str = "\
error: --resource needs a name of 1 to 32 of a-z, 0-9 and -

For more information, try '--help'.
";

/// An option that takes a value.
fn option<'a>(alloc: Global, name: &'a str, value: &'a str, help: &'a str) -> Arg<'a>
    ensures rule { rule_of result ≡ option_rule name.entry.now }
    ensures local { result.global ≡ false }
{
    Arg::new(alloc, name)
        .long(name)
        .value_name(value)
        .action(ArgAction::Set)
        .help(help)
}

/// The program without its options.
fn bare<'a>(alloc: Global) -> clap::Command<'a>
    ensures { app_of result ≡ bare_app }
{
    clap::Command::new(alloc, "rwdraw")
        .version("0.1.0")
        .about(ABOUT)
        .long_about(HELP)
}

/// The words that the program takes.
fn words_taken<'a>(alloc: Global) -> Result<clap::Command<'a>, AllocError>
    ensures { IfOk result (λ c. app_of c ≡ app) }
{
    let from = option(alloc, "from", "LINE", "The first line to draw, 1 or more");
    let upto = option(alloc, "to", "LINE", "The last line to draw");
    let resource = option(alloc, "resource", "NAME", "The one resource to draw");
    let with_from = bare(alloc).arg(from)?;
    let with_both = with_from.arg(upto)?;
    let with_all = with_both.arg(resource)?;
    Ok(with_all)
}

/// Why nothing is drawn.
#[derive(Drop)]
pub enum Undrawn {
    /// The words name nothing to draw.
    Unserved(Unserved),
    /// A value is none that its option takes, as this text says.
    Value(&'static str),
}

/// The number of a line that a text is.
fn line_in(text: &str) -> Option<u32>
    ensures { SomeIff result (IsLine text.now) (line_number text.now) }
{
    match text.parse::<u32>() {
        Ok(number) if number > 0 => Some(number),
        _ => None,
    }
}

/// The number of the line at an option, or another one where it isn't given.
fn line_at(found: &ArgMatches, name: &str, absent: u32) -> Option<u32>
    ensures { TellsLine absent (first_of name.now (rows_of (found_of found.now))) result }
{
    match found.get_str(name) {
        Some(text) => line_in(text),
        None => Some(absent),
    }
}

/// The resource that is drawn, if one is named; no answer where what is named is none.
fn resource_at(found: &ArgMatches) -> Option<Option<ResourceName>>
    ensures { TellsName (first_of (codes "resource") (rows_of (found_of found.now))) result }
{
    match found.get_str("resource") {
        Some(text) => match ResourceName::of(text.as_bytes()) {
            Some(name) => Some(Some(name)),
            None => None,
        },
        None => Some(None),
    }
}

/// Which part of a journal the options name.
fn part_in(found: &ArgMatches) -> Result<Part, Undrawn>
    ensures { TellsPart (rows_of (found_of found.now)) result }
{
    let Some(first) = line_at(found, "from", 1) else {
        return Err(Undrawn::Value(WRONG_FROM));
    };
    let Some(last) = line_at(found, "to", u32::MAX) else {
        return Err(Undrawn::Value(WRONG_TO));
    };
    if last < first {
        return Err(Undrawn::Value(WRONG_ORDER));
    }
    match resource_at(found) {
        Some(resource) => Ok(Part {
            first,
            last,
            resource,
        }),
        None => Err(Undrawn::Value(WRONG_RESOURCE)),
    }
}

/// Which part the words name by this command.
fn parse_by<'a>(
    alloc: Global,
    command: clap::Command<'a>,
    words: &'a [String],
) -> Result<Part, Undrawn>
    requires { app_of command ≡ app }
    ensures { ReadsPart (fault_of app (map string_bytes words.now)) (rows_in (map string_bytes words.now)) result }
{
    match command.try_get_matches_from(words) {
        Ok(found) => part_in(&found),
        Err(error) => Err(Undrawn::Unserved(unserved_by(alloc, &error))),
    }
}

/// Reads the words, of which the first is the program's name.
pub(crate) fn read_words(alloc: Global, words: &[String]) -> Result<Part, Undrawn>
    ensures { ReadsPart (fault_of app (map string_bytes words.now)) (rows_in (map string_bytes words.now)) result }
{
    match words_taken(alloc) {
        Ok(command) => parse_by(alloc, command, words),
        Err(_) => Err(Undrawn::Unserved(Unserved::NoMemory)),
    }
}

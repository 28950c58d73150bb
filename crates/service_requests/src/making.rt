// The command that makes a service.

ghost use Rattle.std.specs.Prelude.{option_map, IfOk, IfErr};
ghost use Rattle.service_requests.specs.Requests.{IsBeginning, IsReadFault, MakesFrom, MakesRead, MakesList, RunsInit};

use operator_cli::ServeFault;
use program_ends::{Ended, say, tell_fault};
use service_ends::tell_service_fault;
use service_folders::{Part, make_service};
use service_words::InitWords;
use std::alloc::Global;
use std::fs::{File, Files};
use std::io::{ErrorKind, Read, Write};

/// How many bytes of settings are read. More are refused.
const MOST_READ: u64 = 65_536;

/// What is said of a list of actors that can't be read.
const WRONG_ACTORS: &str =
    "error: --actors takes a list as n1,n2,c1-c16\n\nFor more information, try '--help'.\n";

/// Reads settings: all bytes of the reader, or so many that they are too many. The faults are 931 and 933.
fn read_settings_text<R: Read>(alloc: Global, reader: R) -> Result<Vec<u8>, ServeFault>
where
    R: Drop,
    ensures text { IfOk result (λ text. IsBeginning (R.remaining reader) text.items) }
    ensures faults { IfErr result IsReadFault }
{
    let mut text = Vec::new(alloc);
    match reader.take(MOST_READ).read_to_end(&mut text) {
        Ok(_) => Ok(text),
        Err(error) if error.kind() == ErrorKind::OutOfMemory => Err(ServeFault::Memory),
        Err(_) => Err(ServeFault::Read),
    }
}

/// Makes the service of these settings, for the actors of this part or for all.
fn make_from<F: Files<File = File>, E: Write>(
    files: &F,
    alloc: Global,
    words: &InitWords<'_>,
    part: Option<Part>,
    text: &[u8],
    errors: &mut E,
) -> Ended
    ensures { MakesFrom text.now part (E.contents errors.old) (E.contents errors.new) result }
{
    match make_service(files, alloc, words.folder, text, part, words.secret) {
        Ok(()) => Ended {
            status: 0,
            told: true,
        },
        Err(fault) => tell_service_fault(alloc, fault, errors),
    }
}

/// Makes a service of the settings that the reader gives, for the actors of this part or for all.
fn make_read<F: Files<File = File>, R: Read, E: Write>(
    files: &F,
    alloc: Global,
    words: &InitWords<'_>,
    part: Option<Part>,
    reader: R,
    errors: &mut E,
) -> Ended
where
    R: Drop,
    ensures { MakesRead (R.remaining reader) part (E.contents errors.old) (E.contents errors.new) result }
{
    match read_settings_text(alloc, reader) {
        Ok(text) => make_from(files, alloc, words, part, text.as_slice(), errors),
        Err(fault) => tell_fault(fault, errors),
    }
}

/// Makes a service for the actors that a list names. A list that can't be read is refused.
fn make_part<F: Files<File = File>, R: Read, E: Write>(
    files: &F,
    alloc: Global,
    words: &InitWords<'_>,
    list: &str,
    reader: R,
    errors: &mut E,
) -> Ended
where
    R: Drop,
    ensures { MakesList list.now (R.remaining reader) (E.contents errors.old) (E.contents errors.new) result }
{
    match Part::read(list) {
        Some(part) => make_read(files, alloc, words, Some(part), reader, errors),
        None => say(2, WRONG_ACTORS, errors),
    }
}

/// Makes a service by the words of `init`. Nothing goes to standard output.
pub(crate) fn run_init<F: Files<File = File>, R: Read, E: Write>(
    files: &F,
    alloc: Global,
    words: &InitWords<'_>,
    reader: R,
    errors: &mut E,
) -> Ended
where
    R: Drop,
    ensures { RunsInit (option_map (λ t. t.now) words.now.actors) (R.remaining reader) (E.contents errors.old) (E.contents errors.new) result }
{
    match words.actors {
        Some(list) => make_part(files, alloc, words, list, reader, errors),
        None => make_read(files, alloc, words, None, reader, errors),
    }
}

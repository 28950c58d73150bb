// The journals that `rwvote merge` merges, and where their settings are.

ghost use Rattle.std.specs.Prelude.{◌≡◌, length};
ghost use Rattle.lock_messages.specs.declared.ids.TheConstants.{MAX_NODES};
ghost use Rattle.command_line.specs.CommandLine.{MergesNamed};

use merge_service::run_merge;
use operator_cli::ServeFault;
use program_ends::{Ended, tell_fault};
use std::alloc::{AllocError, Global};
use std::fs::{self, File, Files};
use std::io::{self, ErrorKind, Read, Write};
use world_settings::Policies;

/// The line that follows settings if journals follow.
const LINE: &[u8] = b"---\n";

/// Journals by the names of their files, and the settings if they are those of a directory.
#[derive(Drop)]
struct Gathered {
    names: Vec<String>,
    settings: Option<Vec<u8>>,
}

/// The settings in the directory of a service, with a line `---` after them.
fn settings_in<F: Files<File = File>>(
    files: &F,
    alloc: Global,
    folder: &str,
) -> io::Result<Vec<u8>> {
    let path = format!(in alloc; "{folder}/settings.toml")?;
    let mut settings = fs::read(&(files, alloc), path.as_str())?;
    if settings.last().is_some_and(|byte| *byte != b'\n') {
        settings.push(b'\n')?;
    }
    settings.extend_from_slice(LINE)?;
    Ok(settings)
}

/// The names of the journals in a directory, in order.
fn journals_in<F: Files<File = File>>(
    files: &F,
    alloc: Global,
    folder: &str,
) -> io::Result<Vec<String>> {
    let mut names = Vec::new(alloc);
    for entry in fs::read_dir(&(files, alloc), folder)? {
        let entry = entry?;
        let name = entry.file_name();
        if name.ends_with(".journal") {
            names.push(format!(in alloc; "{folder}/{name}")?)?;
        }
    }
    names.sort()?;
    Ok(names)
}

/// What is found under a name, unless it is no directory of a service. The only error is running out of memory.
fn found<T>(read: io::Result<T>) -> Result<Option<T>, AllocError> {
    match read {
        Ok(value) => Ok(Some(value)),
        Err(error) if error.kind() == ErrorKind::OutOfMemory => Err(AllocError),
        Err(_) => Ok(None),
    }
}

/// Adds the journals that are meant by a name: those in the directory of this name, or the file itself.
fn add<F: Files<File = File>>(
    files: &F,
    alloc: Global,
    name: &str,
    gathered: &mut Gathered,
) -> Result<(), AllocError> {
    let Some(settings) = found(settings_in(files, alloc, name))? else {
        return gathered
            .names
            .push(String::from_str(alloc, name)?)
            .map_err(|_| AllocError);
    };
    if gathered.names.is_empty() {
        gathered.settings = Some(settings);
    }
    let Some(names) = found(journals_in(files, alloc, name))? else {
        return gathered
            .names
            .push(String::from_str(alloc, name)?)
            .map_err(|_| AllocError);
    };
    for name in names {
        gathered.names.push(name).map_err(|_| AllocError)?;
    }
    Ok(())
}

/// The journals that these names mean. The only error is running out of memory.
fn gather<F: Files<File = File>>(
    files: &F,
    alloc: Global,
    names: &[String],
) -> Result<Gathered, AllocError> {
    let mut gathered = Gathered {
        names: Vec::new(alloc),
        settings: None,
    };
    for name in names {
        add(files, alloc, name.as_str(), &mut gathered)?;
    }
    Ok(gathered)
}

/// Merges journals as `run_merge` does. A directory among the names stands for the journals in it. If the first name is a
/// directory, the settings are those in it, and the reader is not read.
///
/// The caller owes sixteen pairs of policies.
#[tactic(auto, using(crate::proofs::MergeFacts::merges_input, crate::proofs::MergeFacts::merges_folder, crate::proofs::MergeFacts::merges_nothing))]
pub(crate) fn run_merging<F: Files<File = File>, R: Read, W: Write, E: Write>(
    files: &F,
    alloc: Global,
    judged: bool,
    names: &[String],
    policies: Policies,
    reader: R,
    output: &mut W,
    errors: &mut E,
) -> Ended
where
    R: Drop,
    requires policies { length policies.pairs.items ≡ MAX_NODES }
    ensures { MergesNamed judged (R.remaining reader) (record { old = W.contents output.old; new = W.contents output.new; errors_old = E.contents errors.old; errors_new = E.contents errors.new }) result }
{
    let Ok(gathered) = gather(files, alloc, names) else {
        return tell_fault(ServeFault::Memory, errors);
    };
    let Gathered { names, settings } = gathered;
    match settings {
        None => run_merge(
            files,
            alloc,
            judged,
            names.as_slice(),
            policies,
            reader,
            output,
            errors,
        ),
        Some(settings) => run_merge(
            files,
            alloc,
            judged,
            names.as_slice(),
            policies,
            settings.as_slice(),
            output,
            errors,
        ),
    }
}

// What `rwvote --version` says beside the version, if the program is installed.

ghost use Rattle.std.specs.Prelude.{◌≡◌, Some};
ghost use Rattle.clap.specs.Words.{Kinds};
ghost use Rattle.program_ends.specs.Wordings.{IsUnserved, IsOfSort};
ghost use Rattle.program_ends.specs.declared.wording.Sort.TheVariants as sort;

use program_ends::Unserved;
use std::alloc::{AllocError, Global};
use std::fs::{self, File, Files};
use std::io::{self, ErrorKind};

/// Where an installation says what it put in place, below its prefix.
const NOTES: &str = "share/rwvote/VERSION";

/// What the notes of the installation say that this program belongs to, which lies in `bin` below its prefix.
///
/// # Errors
///
/// The program isn't installed, the notes can't be read, or memory runs out.
fn installed_notes<F: Files<File = File>>(files: &F, alloc: Global) -> io::Result<String> {
    let program = fs::read_link(&(files, alloc), "/proc/self/exe")?;
    let Some(folder) = program.as_path().parent() else {
        return Err(io::Error::from(ErrorKind::NotFound));
    };
    let Some(prefix) = folder.parent() else {
        return Err(io::Error::from(ErrorKind::NotFound));
    };
    let path = prefix.join(alloc, NOTES)?;
    fs::read_to_string(&(files, alloc), path.as_path())
}

/// Adds the lines of the notes that name the kit and the commit. The only error is running out of memory.
fn push_origin(text: &mut String, notes: &str) -> Result<(), AllocError> {
    for line in notes.lines() {
        if line.starts_with("kit: ") || line.starts_with("commit: ") {
            text.push_str(line)?;
            text.push('\n')?;
        }
    }
    Ok(())
}

/// Adds the kit and the commit, if the program is installed. The only error is running out of memory.
fn push_installed<F: Files<File = File>>(
    files: &F,
    alloc: Global,
    text: &mut String,
) -> Result<(), AllocError> {
    match installed_notes(files, alloc) {
        Ok(notes) => push_origin(text, notes.as_str()),
        Err(error) if error.kind() == ErrorKind::OutOfMemory => Err(AllocError),
        Err(_) => Ok(()),
    }
}

/// The text of a help, or that of the version, which is one line, with the kit and the commit.
fn shown<F: Files<File = File>>(files: &F, alloc: Global, text: String) -> Unserved
    ensures { IsOfSort sort.Help result }
{
    let mut text = text;
    if text.as_str().lines().nth(1).is_none() && push_installed(files, alloc, &mut text).is_err() {
        return Unserved::NoMemory;
    }
    Unserved::Help(text)
}

/// What is to be said of words that name nothing to serve. The version of an installed program has the kit and the
/// commit beside it.
pub(crate) fn with_origin<F: Files<File = File>>(
    files: &F,
    alloc: Global,
    why: Unserved,
) -> Unserved
    ensures { (kinds : Kinds) → IsUnserved kinds why → IsUnserved kinds result }
{
    match why {
        Unserved::Help(text) => shown(files, alloc, text),
        Unserved::NoMemory => Unserved::NoMemory,
        Unserved::Wrong(text) => Unserved::Wrong(text),
    }
}

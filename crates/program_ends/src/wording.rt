// The words that a program is given, and what is to be said where they name nothing to serve.

ghost use Rattle.std.specs.Prelude.{◌≡◌, IfOk};
ghost use Rattle.std.specs.Vec.Iter.{into_iter_items};
ghost use Rattle.clap.specs.Words.{Kinds, HasKind, kind_of};
ghost use Rattle.program_ends.specs.Wordings.{sort_of, IsOfSort, IsUnserved};

use clap::error::ErrorKind;
use std::alloc::{AllocError, Global};
use std::env::Args;

/// What `clap` says of words that name nothing to serve.
#[derive(Clone, Copy, Debug, PartialEq, Eq)]
pub enum Sort {
    /// Memory was refused while the words were read.
    NoMemory,
    /// Help or the version was asked for.
    Help,
    /// The words are wrong.
    Wrong,
}

/// Why nothing is served.
#[derive(Debug, Drop)]
pub enum Unserved {
    /// Memory was refused.
    NoMemory,
    /// Help or the version is asked for: this text.
    Help(String),
    /// The words are wrong, as this text says.
    Wrong(String),
}

/// The words, one behind another. The only error is want of memory.
pub fn collected(alloc: Global, words: Args) -> Result<Vec<String>, AllocError>
    ensures { IfOk result (λ all. all.items ≡ into_iter_items words) }
{
    words.collect(alloc)
}

fn sort_of(kind: ErrorKind) -> Sort
    ensures { result ≡ sort_of kind }
{
    match kind {
        ErrorKind::OutOfMemory => Sort::NoMemory,
        ErrorKind::DisplayHelp | ErrorKind::DisplayVersion => Sort::Help,
        _ => Sort::Wrong,
    }
}

/// What is to be said of an error, by its kind.
fn said_of(alloc: Global, error: &clap::Error) -> Unserved
    ensures { IsOfSort (sort_of (kind_of error.now)) result }
{
    let Ok(text) = format!(in alloc; "{error}") else {
        return Unserved::NoMemory;
    };
    match sort_of(error.kind()) {
        Sort::NoMemory => Unserved::NoMemory,
        Sort::Help => Unserved::Help(text),
        Sort::Wrong => Unserved::Wrong(text),
    }
}

/// What is to be said where `clap` answers this error: that memory was refused, help or the version that is
/// asked for, or that the words are wrong.
pub fn unserved_by(alloc: Global, error: &clap::Error) -> Unserved
    ensures { (kinds : Kinds) → HasKind kinds error.now → IsUnserved kinds result }
{
    said_of(alloc, error)
}

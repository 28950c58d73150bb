// Journals in files.

ghost use Rattle.std.specs.Prelude.{◌≡◌, ◌+◌, length, IfOk, OnOk};

use journal_merger::{Failure, Journals, JournalsFault};
use std::alloc::Global;
use std::fs::{File, Files};

/// Opens the journal of this name, and reads its first line.
fn open_one<F: Files<File = File>>(
    files: &F,
    journals: &mut Journals<File>,
    name: &str,
) -> Result<(), JournalsFault>
    ensures { OnOk result (length journals.new ≡ length journals.old + 1) }
{
    let Ok(file) = File::open(files, name) else {
        return Err(JournalsFault::Read);
    };
    journals.add(file)
}

/// Opens the journals of these names, in order, and reads the first line of each.
///
/// # Errors
///
/// `Read` (956) if a file can't be opened or read, and those of `Journals::add`, with the index of the name.
pub fn open_journals<F: Files<File = File>>(
    files: &F,
    alloc: Global,
    names: &[String],
) -> Result<Journals<File>, Failure>
    ensures { IfOk result (λ journals. length journals ≡ length names.now) }
{
    let mut journals = Journals::new(alloc);
    for (journal, name) in names.iter().enumerate() {
        match open_one(files, &mut journals, name.as_str()) {
            Ok(()) => {}
            Err(fault) => return Err(Failure { journal, fault }),
        }
    }
    Ok(journals)
}

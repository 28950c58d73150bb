// A merge of journals in files.

ghost use Rattle.std.specs.Prelude.{◌≡◌, length};
ghost use Rattle.lock_messages.specs.declared.ids.TheConstants.{MAX_NODES};
ghost use Rattle.merge_service.specs.Merging.{RunsMerge};

use crate::opening::open_journals;
use crate::serving::serve_merge;
use crate::telling::{tell_end, tell_failure};
use program_ends::Ended;
use std::alloc::Global;
use std::fs::{File, Files};
use std::io::{Read, Write};
use world_settings::Policies;

/// Merges the journals in these files by the settings that the reader gives, as `serve_merge` does, and ends the
/// program.
///
/// The status is 0 if they have a merge, 1 if they have none, and 2 if the settings are refused or a file has to be
/// mended. If they have none, a line for each actor with lines left says on the second writer which line is left, and
/// why. A fault is said there as `fault N`, after the name of the file and the number of the line if it has some.
///
/// The caller owes sixteen pairs of policies.
pub fn run_merge<F: Files<File = File>, R: Read, W: Write, E: Write>(
    files: &F,
    alloc: Global,
    judged: bool,
    names: &[String],
    policies: Policies,
    reader: R,
    output: &mut W,
    errors: &mut E,
) -> Ended
where
    R: Drop,
    requires policies { length policies.pairs.items ≡ MAX_NODES }
    ensures { RunsMerge judged (length names.now) (R.remaining reader) (record { old = W.contents output.old; new = W.contents output.new; errors_old = E.contents errors.old; errors_new = E.contents errors.new }) result }
{
    let mut journals = match open_journals(files, alloc, names) {
        Ok(journals) => journals,
        Err(failure) => return tell_failure(names, 1, failure, errors),
    };
    let came = serve_merge(alloc, judged, policies, &mut journals, reader, output);
    tell_end(alloc, names, &journals, came, errors)
}

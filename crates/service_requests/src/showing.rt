// The command that shows a service.

ghost use Rattle.service_requests.specs.Requests.{RunsStatus};

use program_ends::Ended;
use service_ends::tell_service_fault;
use service_folders::open_service;
use service_status::show_status;
use std::alloc::Global;
use std::fs::{File, Files};
use std::io::Write;

/// Shows the service in a directory.
pub(crate) fn run_status<F: Files<File = File>, W: Write, E: Write>(
    files: &F,
    alloc: Global,
    folder: &str,
    output: &mut W,
    errors: &mut E,
) -> Ended
    ensures { RunsStatus (record { old = W.contents output.old; new = W.contents output.new; errors_old = E.contents errors.old; errors_new = E.contents errors.new }) result }
{
    match open_service(files, alloc, folder) {
        Ok(service) => show_status(files, alloc, &service, output, errors),
        Err(fault) => tell_service_fault(alloc, fault, errors),
    }
}

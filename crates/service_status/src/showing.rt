// How the status of a service is shown.

ghost use Rattle.std.specs.Prelude.{◌≤◌, IfOk, string_bytes};
ghost use Rattle.lock_messages.specs.declared.ids.TheConstants.{MAX_NODES, MAX_CLIENTS};
ghost use Rattle.service_status.specs.Showing.{SaysFolder, ShowsFolder, ShowsStatus};

use crate::{look_at, text_of};
use operator_cli::ServeFault;
use program_ends::{Ended, show, tell_fault};
use service_folders::Service;
use std::alloc::{AllocError, Global};
use std::fs::{File, Files};
use std::io::Write;

/// The lines of a folder's service, which has so many nodes and clients.
fn text_in<R: Files<File = File>>(
    files: &R,
    alloc: Global,
    folder: &str,
    nodes: u8,
    clients: u32,
) -> Result<String, AllocError>
    requires nodes { nodes ≤ MAX_NODES }
    requires clients { clients ≤ MAX_CLIENTS }
    ensures { IfOk result (λ text. SaysFolder nodes clients (string_bytes text)) }
{
    let sight = look_at(files, alloc, folder, nodes, clients)?;
    let text = text_of(alloc, &sight)?;
    Ok(text)
}

/// Shows a folder's service, which has so many nodes and clients.
fn show_folder<R: Files<File = File>, W: Write, E: Write>(
    files: &R,
    alloc: Global,
    folder: &str,
    nodes: u8,
    clients: u32,
    output: &mut W,
    errors: &mut E,
) -> Ended
    requires nodes { nodes ≤ MAX_NODES }
    requires clients { clients ≤ MAX_CLIENTS }
    ensures { ShowsFolder nodes clients (record { old = W.contents output.old; new = W.contents output.new; errors_old = E.contents errors.old; errors_new = E.contents errors.new }) result }
{
    match text_in(files, alloc, folder, nodes, clients) {
        Ok(text) => show(text.as_str(), output, errors),
        Err(_) => tell_fault(ServeFault::Memory, errors),
    }
}

/// Shows a service at a glance: its nodes, its clients, and who has or waits for which vote.
///
/// It ends with status 0, or with status 1 and `fault 933` (out of memory) or `fault 932` (the output can't be
/// written) on the second writer.
pub fn show_status<R: Files<File = File>, W: Write, E: Write>(
    files: &R,
    alloc: Global,
    service: &Service,
    output: &mut W,
    errors: &mut E,
) -> Ended
    ensures { ShowsStatus service.now (record { old = W.contents output.old; new = W.contents output.new; errors_old = E.contents errors.old; errors_new = E.contents errors.new }) result }
{
    let (nodes, clients) = (service.nodes(), service.clients());
    show_folder(files, alloc, service.path(), nodes, clients, output, errors)
}

// What is asked for by a command of a service, and done.

ghost use Rattle.service_requests.specs.Requests.{RunsService};

use crate::making::run_init;
use crate::running::{run_client, run_node, run_switch};
use crate::showing::run_status;
use program_ends::Ended;
use service_programs::run_reaper;
use service_words::ServiceRequest;
use std::alloc::Global;
use std::fs::{File, Files};
use std::io::{Read, Write};
use std::sync::Wait;
use std::thread::Threads;
use std::time::Clock;

/// Makes a service, shows one, or runs one of its programs, and returns how the program ends.
///
/// `init` reads settings from the reader. With `--pipes` a node or a client reads lines there. A client without it
/// reads commands. What standard output gets goes to `output`, and each fault goes to `errors`: the status is then 1, or 2
/// if the settings are refused. The status is 0 if the program did what it was asked for.
///
/// What `switch` writes to `output` is the line that asks the node, or that a node that runs has the problem.
///
/// A node may run until the process is killed.
pub fn run_service_request<
    T: Threads + Wait + Clock + Files<File = File> + Copy + Send + Drop + 'static,
    R: Read + Send + Drop + 'static,
    W: Write,
    E: Write,
>(
    rt: T,
    alloc: Global,
    request: &ServiceRequest<'_>,
    reader: R,
    output: &mut W,
    errors: &mut E,
) -> Ended
    requires { Unit {0} }
    ensures { RunsService request.now (R.remaining reader) (record { old = W.contents output.old; new = W.contents output.new; errors_old = E.contents errors.old; errors_new = E.contents errors.new }) result }
{
    match request {
        ServiceRequest::Init(words) => run_init(&rt, alloc, words, reader, errors),
        ServiceRequest::Node(words) => run_node(rt, alloc, words, reader, output, errors),
        ServiceRequest::Client(words) => run_client(rt, alloc, words, reader, output, errors),
        ServiceRequest::Reap(words) => {
            run_reaper(rt, alloc, words.folder, words.every, output, errors)
        }
        ServiceRequest::Status(folder) => run_status(&rt, alloc, *folder, output, errors),
        ServiceRequest::Switch(words) => run_switch(rt, alloc, words, output, errors),
    }
}

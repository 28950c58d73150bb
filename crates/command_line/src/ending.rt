// A whole run of the program, from its words to its status.

ghost use Rattle.std.specs.Prelude.{◌≡◌, length, map, replicate, string_bytes, IfOk, IfErr};
ghost use Rattle.std.specs.IoError.{error_kind};
ghost use Rattle.std.specs.Io.KnownBytes.{Keeps};
ghost use Rattle.std.specs.Vec.Iter.{into_iter_items};
ghost use Rattle.lock_messages.specs.declared.ids.TheConstants.{MAX_NODES, MAX_CLIENTS};
ghost use Rattle.lock_model.specs.declared.problems.Problem.TheVariants.{First, Second};
ghost use Rattle.run_service.specs.Empty.{empty_node, empty_client};
ghost use Rattle.program_ends.specs.Endings.{EndsUnread};
ghost use Rattle.command_line.specs.CommandLine.{EndsServed, ServesFor, RunsCommand, RunsAsked, RunsRequest, Runs};

use crate::explaining::explain_command;
use crate::merging::run_merging;
use crate::numbers::explain_number;
use crate::records::show_record;
use crate::versions::with_origin;
use command_words::{Request, read_words};
use operator_cli::{Order, ServeFault, serve};
use program_ends::{Ended, collected, end_unserved, tell_fault, tell_unread};
use run_service::{Supplies, serve_run};
use service_requests::{refuse_words, run_service_request};
use std::alloc::Global;
use std::env::Args;
use std::fs::{File, Files};
use std::io;
use std::io::{ErrorKind, Read, Write};
use std::sync::Wait;
use std::thread::Threads;
use std::time::Clock;
use world_settings::{Command, Policies};

/// Ends a run that was served.
fn end_served<E: Write>(came: Result<u8, ServeFault>, errors: &mut E) -> Ended
    ensures { EndsServed came (E.contents errors.old) (E.contents errors.new) result }
{
    match came {
        Ok(status) => Ended { status, told: true },
        Err(fault) => tell_fault(fault, errors),
    }
}

/// Serves a command.
fn serve_for<T: Threads + Wait + Copy + Send, R: Read, W: Write>(
    rt: T,
    alloc: Global,
    order: Order,
    supplies: Supplies,
    reader: R,
    output: &mut W,
) -> Result<u8, ServeFault>
where
    R: Drop,
    requires policies { length order.policies.pairs.items ≡ MAX_NODES }
    requires threads { length supplies.policies.pairs.items ≡ MAX_NODES }
    requires records_first { map (λ r. finds (r.vtable, r.value)) supplies.records.first.items ≡ replicate MAX_NODES (empty_node First) }
    requires records_second { map (λ r. finds (r.vtable, r.value)) supplies.records.second.items ≡ replicate MAX_NODES (empty_node Second) }
    requires records_clients { map (λ r. finds (r.vtable, r.value)) supplies.records.clients.items ≡ replicate MAX_CLIENTS empty_client }
    ensures { ServesFor order.command (R.remaining reader) (W.contents output.old) (W.contents output.new) result }
{
    match order.command {
        Command::Script => serve(alloc, order, reader, output),
        Command::Audit => serve(alloc, order, reader, output),
        Command::Ballot => serve(alloc, order, reader, output),
        Command::Run { .. } => serve_run(rt, alloc, order, reader, output, supplies, &mut None),
    }
}

/// Runs a command.
fn run_command<T: Threads + Wait + Copy + Send, R: Read, W: Write, E: Write>(
    rt: T,
    alloc: Global,
    order: Order,
    supplies: Supplies,
    reader: R,
    output: &mut W,
    errors: &mut E,
) -> Ended
where
    R: Drop,
    requires policies { length order.policies.pairs.items ≡ MAX_NODES }
    requires threads { length supplies.policies.pairs.items ≡ MAX_NODES }
    requires records_first { map (λ r. finds (r.vtable, r.value)) supplies.records.first.items ≡ replicate MAX_NODES (empty_node First) }
    requires records_second { map (λ r. finds (r.vtable, r.value)) supplies.records.second.items ≡ replicate MAX_NODES (empty_node Second) }
    requires records_clients { map (λ r. finds (r.vtable, r.value)) supplies.records.clients.items ≡ replicate MAX_CLIENTS empty_client }
    ensures { RunsCommand order.command (R.remaining reader) (record { old = W.contents output.old; new = W.contents output.new; errors_old = E.contents errors.old; errors_new = E.contents errors.new }) result }
{
    let came = serve_for(rt, alloc, order, supplies, reader, output);
    end_served(came, errors)
}

/// Runs a command, and says in words what it meets where that is asked for.
fn run_asked<T: Threads + Wait + Copy + Send, R: Read, W: Write, E: Write>(
    rt: T,
    alloc: Global,
    explain: bool,
    order: Order,
    supplies: Supplies,
    reader: R,
    output: &mut W,
    errors: &mut E,
) -> Ended
where
    R: Drop,
    requires policies { length order.policies.pairs.items ≡ MAX_NODES }
    requires threads { length supplies.policies.pairs.items ≡ MAX_NODES }
    requires records_first { map (λ r. finds (r.vtable, r.value)) supplies.records.first.items ≡ replicate MAX_NODES (empty_node First) }
    requires records_second { map (λ r. finds (r.vtable, r.value)) supplies.records.second.items ≡ replicate MAX_NODES (empty_node Second) }
    requires records_clients { map (λ r. finds (r.vtable, r.value)) supplies.records.clients.items ≡ replicate MAX_CLIENTS empty_client }
    ensures { RunsAsked explain order.command (R.remaining reader) (record { old = W.contents output.old; new = W.contents output.new; errors_old = E.contents errors.old; errors_new = E.contents errors.new }) result }
{
    if explain {
        explain_command(rt, alloc, order, supplies, reader, output, errors)
    } else {
        run_command(rt, alloc, order, supplies, reader, output, errors)
    }
}

/// Does what is asked for.
fn run_request<
    T: Threads + Wait + Clock + Files<File = File> + Copy + Send + Drop + 'static,
    R: Read + Send + Drop + 'static,
    W: Write,
    E: Write,
>(
    rt: T,
    alloc: Global,
    request: &Request<'_>,
    policies: Policies,
    supplies: Supplies,
    reader: R,
    output: &mut W,
    errors: &mut E,
) -> Ended
    requires policies { length policies.pairs.items ≡ MAX_NODES }
    requires threads { length supplies.policies.pairs.items ≡ MAX_NODES }
    requires records_first { map (λ r. finds (r.vtable, r.value)) supplies.records.first.items ≡ replicate MAX_NODES (empty_node First) }
    requires records_second { map (λ r. finds (r.vtable, r.value)) supplies.records.second.items ≡ replicate MAX_NODES (empty_node Second) }
    requires records_clients { map (λ r. finds (r.vtable, r.value)) supplies.records.clients.items ≡ replicate MAX_CLIENTS empty_client }
    ensures { RunsRequest request.now (R.remaining reader) (record { old = W.contents output.old; new = W.contents output.new; errors_old = E.contents errors.old; errors_new = E.contents errors.new }) result }
{
    match request {
        Request::Serve(asked) => {
            let explain = asked.front || asked.behind;
            let command = asked.command;
            let order = Order { command, policies };
            run_asked(rt, alloc, explain, order, supplies, reader, output, errors)
        }
        Request::Explain(number) => explain_number(alloc, *number, output, errors),
        Request::Record(path) => show_record(&rt, alloc, *path, output, errors),
        Request::Service(service) => {
            run_service_request(rt, alloc, service, reader, output, errors)
        }
        Request::Misused(misuse) => refuse_words(*misuse, errors),
        Request::Merge(merging) => run_merging(
            &rt,
            alloc,
            merging.judged,
            merging.names.as_slice(),
            policies,
            reader,
            output,
            errors,
        ),
    }
}

/// Does what the words say.
#[tactic(auto, using(crate::proofs::WordFacts::runs_request, crate::proofs::WordFacts::runs_unserved))]
fn run_words<
    T: Threads + Wait + Clock + Files<File = File> + Copy + Send + Drop + 'static,
    R: Read + Send + Drop + 'static,
    W: Write,
    E: Write,
>(
    rt: T,
    alloc: Global,
    words: &[String],
    policies: Policies,
    supplies: Supplies,
    reader: R,
    output: &mut W,
    errors: &mut E,
) -> Ended
    requires policies { length policies.pairs.items ≡ MAX_NODES }
    requires threads { length supplies.policies.pairs.items ≡ MAX_NODES }
    requires records_first { map (λ r. finds (r.vtable, r.value)) supplies.records.first.items ≡ replicate MAX_NODES (empty_node First) }
    requires records_second { map (λ r. finds (r.vtable, r.value)) supplies.records.second.items ≡ replicate MAX_NODES (empty_node Second) }
    requires records_clients { map (λ r. finds (r.vtable, r.value)) supplies.records.clients.items ≡ replicate MAX_CLIENTS empty_client }
    ensures { Runs (R.remaining reader) (map string_bytes words.now) (record { old = W.contents output.old; new = W.contents output.new; errors_old = E.contents errors.old; errors_new = E.contents errors.new }) result }
{
    match read_words(alloc, words) {
        Ok(request) => run_request(
            rt, alloc, &request, policies, supplies, reader, output, errors,
        ),
        Err(why) => end_unserved(with_origin(&rt, alloc, why), output, errors),
    }
}

/// Does what the words say that the program was given.
#[tactic(auto, using(crate::proofs::WordFacts::runs_lacking))]
fn run_given<
    T: Threads + Wait + Clock + Files<File = File> + Copy + Send + Drop + 'static,
    R: Read + Send + Drop + 'static,
    W: Write,
    E: Write,
>(
    rt: T,
    alloc: Global,
    given: Args,
    policies: Policies,
    supplies: Supplies,
    reader: R,
    output: &mut W,
    errors: &mut E,
) -> Ended
    requires policies { length policies.pairs.items ≡ MAX_NODES }
    requires threads { length supplies.policies.pairs.items ≡ MAX_NODES }
    requires records_first { map (λ r. finds (r.vtable, r.value)) supplies.records.first.items ≡ replicate MAX_NODES (empty_node First) }
    requires records_second { map (λ r. finds (r.vtable, r.value)) supplies.records.second.items ≡ replicate MAX_NODES (empty_node Second) }
    requires records_clients { map (λ r. finds (r.vtable, r.value)) supplies.records.clients.items ≡ replicate MAX_CLIENTS empty_client }
    ensures { Runs (R.remaining reader) (map string_bytes (into_iter_items given)) (record { old = W.contents output.old; new = W.contents output.new; errors_old = E.contents errors.old; errors_new = E.contents errors.new }) result }
{
    let Ok(all) = collected(alloc, given) else {
        return tell_fault(ServeFault::Memory, errors);
    };
    run_words(
        rt,
        alloc,
        all.as_slice(),
        policies,
        supplies,
        reader,
        output,
        errors,
    )
}

/// Runs the program: does what the words say with the bytes of the reader, and answers how it ended.
///
/// The words are those of `std::env::args`, the program's name first. `script`, `audit` and `ballot`
/// serve what the reader gives, as `operator_cli::serve` does for the command of this name, onto
/// `output`, and `run`, which `--journal` may follow, as `run_service::serve_run` does: the status is that
/// of the call, and nothing goes to `errors`; its fault is told there as `fault N`, with status 1.
/// With `--explain`, in front of the command or behind it, the same is written to `output` and the status is
/// the same, and words go to `errors`, a line for each refusal, fault and verdict (`explanations`). A writer that
/// fails while the input is read hears less of them, which `Ended::told` doesn't tell.
/// `explain N` writes what the number N means, its cause and its remedy to `output`, with status 0. If no fault has
/// the number, `errors` says so, and the status is 2.
/// `record FILE` writes what the file of a record holds to `output`. The status is 0 if it would open as a record,
/// and 1 if not. If the file can't be read, `errors` says so with its number (942, 945), and the status is 2.
/// `init`, `node`, `client`, `reap`, `status` and `switch` make a service, run its programs or show it, as
/// `service_requests::run_service_request` does. If their words are wrong, `errors` says so, and the status is 2.
/// `merge` and the names of files merge the journals in them, as `merge_service::run_merge` does, and with `--judge` only
/// judge them. The name of a service's directory stands for the journals in it. If it is the first name, its settings are
/// read in place of the input.
/// `--help`, `help` and `--version`, also `script --help`, `help script` and the like, go to `output`, with status 0 (`fault 932`
/// and 1 where that fails). The version of an installed program has the kit and the commit after it. Other words are wrong, and so is one that is not UTF-8: a text on `errors`
/// says so, and the status is 2. Where memory is refused while words are read, `fault 933` is told, with
/// status 1.
///
/// Contracts speak of what the reader has left and of what the writers hold, where these are known. No contract says
/// which bytes a file has, nor what a program of a node or a client writes.
/// The caller owes sixteen pairs of policies, as for `serve`, and for the threads of a run as many again;
/// and the empty records that `serve_run` asks for. A run may wait without end.
pub fn run<
    T: Threads + Wait + Clock + Files<File = File> + Copy + Send + Drop + 'static,
    R: Read + Send + Drop + 'static,
    W: Write,
    E: Write,
>(
    rt: T,
    alloc: Global,
    words: io::Result<Args>,
    policies: Policies,
    supplies: Supplies,
    reader: R,
    output: &mut W,
    errors: &mut E,
) -> Ended
    requires policies { length policies.pairs.items ≡ MAX_NODES }
    requires threads { length supplies.policies.pairs.items ≡ MAX_NODES }
    requires records_first { map (λ r. finds (r.vtable, r.value)) supplies.records.first.items ≡ replicate MAX_NODES (empty_node First) }
    requires records_second { map (λ r. finds (r.vtable, r.value)) supplies.records.second.items ≡ replicate MAX_NODES (empty_node Second) }
    requires records_clients { map (λ r. finds (r.vtable, r.value)) supplies.records.clients.items ≡ replicate MAX_CLIENTS empty_client }
    ensures runs { IfOk words (λ all. Runs (R.remaining reader) (map string_bytes (into_iter_items all)) (record { old = W.contents output.old; new = W.contents output.new; errors_old = E.contents errors.old; errors_new = E.contents errors.new }) result) }
    ensures unread { IfErr words (λ error. EndsUnread (error_kind error ≡ ErrorKind.OutOfMemory) (E.contents errors.old) (E.contents errors.new) result) }
    ensures unread_keeps { IfErr words (λ error. Keeps (W.contents output.old) (W.contents output.new)) }
{
    match words {
        Ok(given) => run_given(rt, alloc, given, policies, supplies, reader, output, errors),
        Err(error) => tell_unread(error, errors),
    }
}

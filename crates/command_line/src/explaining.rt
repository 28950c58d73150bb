// A command that says in words what it meets, beside what it prints.

ghost use Rattle.std.specs.Prelude.{◌≡◌, length, map, replicate};
ghost use Rattle.lock_messages.specs.declared.ids.TheConstants.{MAX_NODES, MAX_CLIENTS};
ghost use Rattle.lock_model.specs.declared.problems.Problem.TheVariants.{First, Second};
ghost use Rattle.operator_cli.specs.Outputs.{IsServed, Serves};
ghost use Rattle.run_service.specs.Empty.{empty_node, empty_client};
ghost use Rattle.command_line.specs.CommandLine.{ServesFor, ExplainsCommand, status_of};

use explanations::Explainer;
use fault_numbers::meaning_of;
use line_streams::write_text;
use operator_cli::{Order, ServeFault, serve_watched};
use program_ends::Ended;
use run_service::{Supplies, serve_run};
use std::alloc::Global;
use std::io::{Read, Write};
use std::sync::Wait;
use std::thread::Threads;
use world_settings::Command;

/// Serves a script, a journal or ballots, and says what there is to say of what they meet.
fn serve_explained<R: Read, W: Write, E: Write>(
    alloc: Global,
    order: Order,
    reader: R,
    output: &mut W,
    errors: &mut E,
) -> Result<u8, ServeFault>
where
    R: Drop,
    requires policies { length order.policies.pairs.items ≡ MAX_NODES }
    requires served { IsServed order.command }
    ensures { Serves order.command (R.remaining reader) (W.contents output.old) (W.contents output.new) result }
{
    let mut explainer = Explainer::new(alloc, order.command, errors);
    serve_watched(alloc, order, reader, output, &mut explainer)
}

/// Serves a command, and says what there is to say of it.
fn serve_in_words<T: Threads + Wait + Copy + Send, R: Read, W: Write, E: Write>(
    rt: T,
    alloc: Global,
    order: Order,
    supplies: Supplies,
    reader: R,
    output: &mut W,
    errors: &mut E,
    words: &mut Option<String>,
) -> Result<u8, ServeFault>
where
    R: Drop,
    requires policies { length order.policies.pairs.items ≡ MAX_NODES }
    requires threads { length supplies.policies.pairs.items ≡ MAX_NODES }
    requires records_first { map (λ r. finds (r.vtable, r.value)) supplies.records.first.items ≡ replicate MAX_NODES (empty_node First) }
    requires records_second { map (λ r. finds (r.vtable, r.value)) supplies.records.second.items ≡ replicate MAX_NODES (empty_node Second) }
    requires records_clients { map (λ r. finds (r.vtable, r.value)) supplies.records.clients.items ≡ replicate MAX_CLIENTS empty_client }
    ensures { ServesFor order.command (R.remaining reader) (W.contents output.old) (W.contents output.new) result }
{
    match order.command {
        Command::Script => serve_explained(alloc, order, reader, output, errors),
        Command::Audit => serve_explained(alloc, order, reader, output, errors),
        Command::Ballot => serve_explained(alloc, order, reader, output, errors),
        Command::Run { .. } => serve_run(rt, alloc, order, reader, output, supplies, words),
    }
}

/// Ends a run that was served: says what came of it, and its fault.
fn end_explained<E: Write>(
    came: Result<u8, ServeFault>,
    words: &Option<String>,
    errors: &mut E,
) -> Ended
    ensures { result.status ≡ status_of came }
{
    let said = match words {
        Some(text) => write_text(errors, text.as_bytes()).is_ok(),
        None => true,
    };
    match came {
        Ok(status) => Ended { status, told: said },
        Err(fault) => {
            let number = fault.number();
            let meaning = meaning_of(number);
            let told = writeln!(errors, "fault {number}: {meaning}").is_ok() && said;
            Ended { status: 1, told }
        }
    }
}

/// Runs a command, and says in words what it meets.
pub(crate) fn explain_command<T: Threads + Wait + Copy + Send, R: Read, W: Write, E: Write>(
    rt: T,
    alloc: Global,
    order: Order,
    supplies: Supplies,
    reader: R,
    output: &mut W,
    errors: &mut E,
) -> Ended
where
    R: Drop,
    requires policies { length order.policies.pairs.items ≡ MAX_NODES }
    requires threads { length supplies.policies.pairs.items ≡ MAX_NODES }
    requires records_first { map (λ r. finds (r.vtable, r.value)) supplies.records.first.items ≡ replicate MAX_NODES (empty_node First) }
    requires records_second { map (λ r. finds (r.vtable, r.value)) supplies.records.second.items ≡ replicate MAX_NODES (empty_node Second) }
    requires records_clients { map (λ r. finds (r.vtable, r.value)) supplies.records.clients.items ≡ replicate MAX_CLIENTS empty_client }
    ensures { ExplainsCommand order.command (R.remaining reader) (record { old = W.contents output.old; new = W.contents output.new; errors_old = E.contents errors.old; errors_new = E.contents errors.new }) result }
{
    let mut words = Some(String::new(alloc));
    let came = serve_in_words(
        rt, alloc, order, supplies, reader, output, errors, &mut words,
    );
    end_explained(came, &words, errors)
}

// A whole run, from the bytes of its settings to what is told of its end.

ghost use Rattle.std.specs.Prelude.{◌≡◌, ◌≤◌, ◌++◌, List, length, map, replicate, codes, IfOk, IfErr, OnOk};
ghost use Rattle.lock_messages.specs.declared.ids.TheConstants.{MAX_NODES, MAX_CLIENTS};
ghost use Rattle.lock_model.specs.declared.problems.Problem.TheVariants.{First, Second};
ghost use Rattle.history_book.specs.Books.{enters};
ghost use Rattle.journal_text.specs.Journals.{IsRecorded};
ghost use Rattle.line_streams.specs.Streams.{Puts};
ghost use Rattle.event_lines.specs.declared.wishes.Wish.{Wish as WishValue};
ghost use Rattle.world_settings.specs.Openings.{all_down};
ghost use Rattle.operator_cli.specs.Outputs.{IsCommonFault};
ghost use Rattle.world_settings.specs.Settings.{AreAmong};
ghost use Rattle.run_service.specs.Empty.{empty_node, empty_client};
ghost use Rattle.run_service.specs.Ends.{IsEndOf, end_text, end_status, journal_behind};
ghost use Rattle.run_service.specs.Outputs.{IsRun, ServesRun};
ghost use Rattle.run_service.specs.Parts.{TellsEnd, RunsHead};

use crate::ends::{push_end, status_of};
use crate::records::{Supplies, chosen_records};
use event_lines::Wish;
use explanations::{RunWords, push_settings_fault};
use journal_audit::laws::verdicts_are_exact;
use journal_laws::laws::journals_are_sound;
use journal_text::JournalFault;
use line_streams::{LineReader, MAX_READS, write_text};
use lock_session::OpenGate;
use lossy_link::Weather;
use node_threads::{RunEnd, run_all};
use operator_cli::{Order, ServeFault, refuse_start};
use std::alloc::Global;
use std::io::{Read, Write};
use std::sync::Wait;
use std::thread::Threads;
use world_settings::{
    Command, Policies, Settings, SettingsFault, Start, StartFault, chosen, read_head,
    read_settings, world_down,
};

/// Writes a text.
fn put<W: Write>(text: &[u8], writer: &mut W) -> Result<(), ServeFault>
    ensures text { Puts (W.contents writer.old) (W.contents writer.new) text.now result }
    ensures common { IfErr result IsCommonFault }
{
    match write_text(writer, text) {
        Ok(()) => Ok(()),
        Err(_) => Err(ServeFault::Write),
    }
}

/// Tells what a run came to.
#[tactic(auto, using(crate::proofs::WriteFacts::untold))]
fn tell_end<W: Write>(alloc: Global, end: &RunEnd, writer: &mut W) -> Result<(), ServeFault>
    requires { end.now.entered ≡ enters end.now.book.history }
    ensures text { Puts (W.contents writer.old) (W.contents writer.new) (end_text end.now.book.history end.now.faults.items) result }
    ensures common { IfErr result IsCommonFault }
{
    let mut text = String::new(alloc);
    if push_end(&mut text, end).is_err() {
        return Err(ServeFault::Memory);
    }
    put(text.as_bytes(), writer)
}

/// Writes the settings and the line that ends them.
#[tactic(auto, using(crate::proofs::WriteFacts::puts_both, crate::proofs::WriteFacts::first_part))]
fn put_head<W: Write>(head: &[u8], writer: &mut W) -> Result<(), ServeFault>
    ensures text { Puts (W.contents writer.old) (W.contents writer.new) (head.now ++ codes "---\n") result }
    ensures common { IfErr result IsCommonFault }
{
    match put(head, writer) {
        Ok(()) => put(b"---\n", writer),
        Err(fault) => Err(fault),
    }
}

/// Writes the settings, the line that ends them, and the journal of a run.
#[tactic(auto, using(crate::proofs::WriteFacts::first_part, crate::proofs::WriteFacts::then_part))]
fn put_journal<W: Write>(
    alloc: Global,
    head: &[u8],
    end: &RunEnd,
    writer: &mut W,
) -> Result<(), ServeFault>
    ensures text { Puts (W.contents writer.old) (W.contents writer.new) (journal_behind head.now end.now.book.history) result }
    ensures recorded { OnOk result (IsRecorded end.now.book.opening end.now.book.history end.now.book.world) }
    ensures common { IfErr result IsCommonFault }
{
    match put_head(head, writer) {
        Ok(()) => {}
        Err(fault) => return Err(fault),
    }
    match end.book.write_journal(alloc, writer) {
        Ok(()) => Ok(()),
        Err(JournalFault::Write) => Err(ServeFault::Write),
        Err(JournalFault::Memory) => Err(ServeFault::Memory),
    }
}

/// Tells what a run came to, or writes its journal; answers the status.
fn tell<W: Write>(
    alloc: Global,
    journal: bool,
    head: &[u8],
    settings: &Settings,
    end: &RunEnd,
    writer: &mut W,
) -> Result<u8, ServeFault>
    requires entered { end.now.entered ≡ enters end.now.book.history }
    requires opening { end.now.book.opening ≡ all_down settings.now }
    ensures told { (wishes : List WishValue) → IsEndOf settings.now wishes (record { history = end.now.book.history; world = end.now.book.world; faults = end.now.faults.items }) → TellsEnd journal head.now settings.now wishes (W.contents writer.old) (W.contents writer.new) result }
    ensures common { IfErr result IsCommonFault }
{
    let told = if journal {
        put_journal(alloc, head, end, writer)
    } else {
        tell_end(alloc, end, writer)
    };
    match told {
        Ok(()) => Ok(status_of(end.faults.as_slice())),
        Err(fault) => Err(fault),
    }
}

/// Runs the service by the settings, with as many policies and records as they need. The only fault is
/// want of memory, or that a thread couldn't be started.
fn run<T: Threads + Wait + Copy + Send>(
    rt: T,
    alloc: Global,
    settings: &Settings,
    weather: Weather,
    wishes: &[Wish],
    for_world: Policies,
    supplies: Supplies,
) -> Result<RunEnd, ServeFault>
    requires some_client { 1 ≤ settings.now.clients }
    requires few_clients { settings.now.clients ≤ MAX_CLIENTS }
    requires wishes { AreAmong settings.now.clients settings.now.ballots wishes.now }
    requires world { length for_world.pairs.items ≡ MAX_NODES }
    requires threads { length supplies.policies.pairs.items ≡ MAX_NODES }
    requires records_first { map (λ r. finds r) supplies.records.first.items ≡ replicate MAX_NODES (empty_node First) }
    requires records_second { map (λ r. finds r) supplies.records.second.items ≡ replicate MAX_NODES (empty_node Second) }
    requires records_clients { map (λ r. finds r) supplies.records.clients.items ≡ replicate MAX_CLIENTS empty_client }
    ensures opening { IfOk result (λ end. end.book.opening ≡ all_down settings.now) }
    ensures end { IfOk result (λ end. IsEndOf settings.now wishes.now (record { history = end.book.history; world = end.book.world; faults = end.faults.items })) }
    ensures entered { IfOk result (λ end. end.entered ≡ enters end.book.history) }
    ensures err { IfErr result (λ fault. fault ≡ ServeFault.Memory) }
{
    let nodes = settings.ballots.nodes();
    let Ok(world) = world_down(alloc, settings, for_world) else {
        return Err(ServeFault::Memory);
    };
    let Supplies { policies, records } = supplies;
    let Ok(records) = chosen_records(records, settings.problem, nodes, settings.clients) else {
        return Err(ServeFault::Memory);
    };
    let pairs = chosen(policies, nodes);
    let ballots = settings.ballots;
    let Ok(end) = run_all(
        rt, alloc, ballots, wishes, records, world, pairs, weather, &OpenGate,
    ) else {
        return Err(ServeFault::Memory);
    };
    end.book.standing();
    Ok(end)
}

/// Adds in words what a run came to, where that is wanted. Want of memory leaves a part of it.
fn push_words(
    alloc: Global,
    clients: u16,
    wishes: &Vec<Wish>,
    end: &RunEnd,
    words: &mut Option<String>,
) {
    let Some(text) = words else {
        return;
    };
    let Ok(mut told) = RunWords::new(alloc, clients) else {
        return;
    };
    if end.book.write_journal(alloc, &mut told).is_err() {
        return;
    }
    let _left_short = told.push(alloc, text, wishes.as_slice(), end.faults.as_slice());
}

/// Adds in words why there are no settings, where that is wanted. Want of memory leaves a part of it.
fn push_refusal(
    alloc: Global,
    command: Command,
    head: &[u8],
    fault: StartFault,
    words: &mut Option<String>,
) {
    let (Some(text), StartFault::Settings(fault)) = (words, fault) else {
        return;
    };
    let _left_short = push_settings_fault(alloc, text, command, head, fault);
}

/// Runs the service by what the head says, and tells what it came to.
fn run_head<T: Threads + Wait + Copy + Send, W: Write>(
    rt: T,
    alloc: Global,
    journal: bool,
    head: &[u8],
    for_world: Policies,
    supplies: Supplies,
    writer: &mut W,
    words: &mut Option<String>,
) -> Result<u8, ServeFault>
    requires world { length for_world.pairs.items ≡ MAX_NODES }
    requires threads { length supplies.policies.pairs.items ≡ MAX_NODES }
    requires records_first { map (λ r. finds r) supplies.records.first.items ≡ replicate MAX_NODES (empty_node First) }
    requires records_second { map (λ r. finds r) supplies.records.second.items ≡ replicate MAX_NODES (empty_node Second) }
    requires records_clients { map (λ r. finds r) supplies.records.clients.items ≡ replicate MAX_CLIENTS empty_client }
    ensures told { RunsHead journal head.now (W.contents writer.old) (W.contents writer.new) result }
    ensures common { IfErr result IsCommonFault }
{
    let command = Command::Run { journal };
    let start = match read_settings(alloc, command, head) {
        Ok(start) => start,
        Err(fault) => {
            let fault = StartFault::Settings(fault);
            push_refusal(alloc, command, head, fault, words);
            return refuse_start(command, fault, writer);
        }
    };
    let Start {
        settings,
        weather,
        wishes,
    } = start;
    let Ok(end) = run(
        rt,
        alloc,
        &settings,
        weather,
        wishes.as_slice(),
        for_world,
        supplies,
    ) else {
        return Err(ServeFault::Memory);
    };
    push_words(alloc, settings.clients, &wishes, &end, words);
    tell(alloc, journal, head, &settings, &end, writer)
}

/// Runs the service by the settings that the source gives, and tells what it came to.
fn run_source<T: Threads + Wait + Copy + Send, R: Read, W: Write>(
    rt: T,
    alloc: Global,
    journal: bool,
    source: &mut LineReader<R>,
    for_world: Policies,
    supplies: Supplies,
    writer: &mut W,
    words: &mut Option<String>,
) -> Result<u8, ServeFault>
    requires world { length for_world.pairs.items ≡ MAX_NODES }
    requires threads { length supplies.policies.pairs.items ≡ MAX_NODES }
    requires records_first { map (λ r. finds r) supplies.records.first.items ≡ replicate MAX_NODES (empty_node First) }
    requires records_second { map (λ r. finds r) supplies.records.second.items ≡ replicate MAX_NODES (empty_node Second) }
    requires records_clients { map (λ r. finds r) supplies.records.clients.items ≡ replicate MAX_CLIENTS empty_client }
    ensures output { ServesRun (Command.Run journal) source.old (W.contents writer.old) (W.contents writer.new) result }
    ensures faults { IfErr result IsCommonFault }
{
    let command = Command::Run { journal };
    let mut head = Vec::new(alloc);
    match read_head(alloc, source, &mut head) {
        Ok(()) => {}
        Err(fault) => {
            push_refusal(alloc, command, head.as_slice(), fault, words);
            return refuse_start(command, fault, writer);
        }
    }
    journals_are_sound();
    verdicts_are_exact();
    run_head(
        rt,
        alloc,
        journal,
        head.as_slice(),
        for_world,
        supplies,
        writer,
        words,
    )
}

/// Runs the service by the settings that the reader gives, and answers the status of the program.
///
/// The bytes begin with settings, as for `operator_cli::serve`, which the line `---` ends; what follows is
/// ignored. Refused ones print `settings fault N` and nothing else, and the status is 2. Else each node and
/// each client gets a thread; all nodes rise, and each client, and then it sees to its wishes in order,
/// while the weather of the settings loses, repeats and delays what they send. Once all threads have ended
/// it prints `entered E`, how often a resource was entered; `events N`, how many events the history has;
/// and for each actor that ended by a fault, nodes first, a line such as `c2 fault 913`. Asked for the
/// journal, it prints the settings as they were read, `---` and the journal in place of this. The status
/// is 1 where an actor ended by a fault, else 0.
///
/// Where `words` has a text, what the run came to is added to it in words (`explanations`): who entered what
/// and how often, who ended by a fault and in which wish, which wishes were left; or why the settings are refused.
/// What is printed and answered is the same with it and without.
///
/// Contracts speak of what the reader has left and of what the writer holds, where these are known. The
/// caller owes an order for `Run`; sixteen pairs of policies for the world, with the order, and as many for
/// the threads; and records in which nothing was ever written: sixteen of nodes that solve each problem, and
/// 1,024 of clients. Of each the first ones are used, as many as the settings need, and the others are
/// dropped. It waits for all threads; that they end is not promised.
///
/// # Errors
///
/// `Read` (931) where the reader fails or 600,000,000 reads were made, `Write` (932) where the writer fails
/// or takes nothing, `Memory` (933) where memory was refused or a thread couldn't be started. After a fault
/// a beginning of the output was written; of what a run came to, not all.
pub fn serve_run<T: Threads + Wait + Copy + Send, R: Read, W: Write>(
    rt: T,
    alloc: Global,
    order: Order,
    reader: R,
    writer: &mut W,
    supplies: Supplies,
    words: &mut Option<String>,
) -> Result<u8, ServeFault>
where
    R: Drop,
    requires run { IsRun order.command }
    requires world { length order.policies.pairs.items ≡ MAX_NODES }
    requires threads { length supplies.policies.pairs.items ≡ MAX_NODES }
    requires records_first { map (λ r. finds r) supplies.records.first.items ≡ replicate MAX_NODES (empty_node First) }
    requires records_second { map (λ r. finds r) supplies.records.second.items ≡ replicate MAX_NODES (empty_node Second) }
    requires records_clients { map (λ r. finds r) supplies.records.clients.items ≡ replicate MAX_CLIENTS empty_client }
    ensures output { ServesRun order.command (R.remaining reader) (W.contents writer.old) (W.contents writer.new) result }
    ensures faults { IfErr result IsCommonFault }
{
    let Order {
        command,
        policies: for_world,
    } = order;
    let Command::Run { journal } = command else {
        unreachable!()
    };
    // Room for what is read ahead is made on the heap: the stack may be small.
    let Ok(mut source) = Box::new(alloc, LineReader::new(reader, MAX_READS)) else {
        return refuse_start(command, StartFault::Settings(SettingsFault::Memory), writer);
    };
    run_source(
        rt,
        alloc,
        journal,
        &mut source,
        for_world,
        supplies,
        writer,
        words,
    )
}

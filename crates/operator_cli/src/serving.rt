// A whole run of the program, from the bytes that come in to the bytes that go out.

ghost use Rattle.std.specs.Prelude.{◌≡◌, ◌≤◌, [], length, IfOk, IfErr};
ghost use Rattle.lock_messages.specs.declared.ids.TheConstants.{MAX_NODES, MAX_CLIENTS};
ghost use Rattle.vote_weights.specs.Faults.{fault_number};
ghost use Rattle.event_lines.specs.Faults.{line_fault_number};
ghost use Rattle.lossy_link.specs.Faults.{weather_fault_number};
ghost use Rattle.world_settings.specs.Faults.{settings_fault_number};
ghost use Rattle.world_settings.specs.Openings.{all_down};
ghost use Rattle.operator_cli.specs.Hearing.{script_words, journal_words, behind_words, HearsAs, HearsInput};
ghost use Rattle.operator_cli.specs.Outputs.{IsServed, IsCommonFault, MayEndBy, Prints, Serves, Writes, refusal_output, refused_ballot_output, refused_output, verdict_status};
ghost use Rattle.operator_cli.specs.PartOutputs.{WritesLines, Finishes, RefusesStart, WritesBehind, WritesVerdict};
ghost use Rattle.operator_cli.specs.Texts.{settings_fault_text, refused_text, ballots_text};
ghost use Rattle.world_settings.specs.declared.faults.SettingsFault.TheVariants as settings;
ghost use Rattle.world_settings.specs.declared.commands.Command.TheVariants as command;

use crate::raising::raise_all;
use crate::script::tell_lines;
use crate::texts::push_ballots;
use crate::{LineFault, Onlooker, Order, ServeFault};
use journal_audit::{Unwatched, Verdict, Watcher, audit_watched};
use line_streams::{Gathered, LineReader, MAX_READS, write_text};
use lossy_link::WeatherFault;
use std::alloc::Global;
use std::io::{Read, Write};
use vote_weights::{BallotFault, BallotList};
use world_machine::World;
use world_settings::{
    Command, Policies, Settings, SettingsFault, StartFault, read_start, world_down,
};

/// That numbers make no ballot, told as wrong settings.
fn ballot_text(fault: BallotFault) -> &'static str
    ensures { result.now ≡ settings_fault_text (fault_number fault) }
{
    match fault {
        BallotFault::NoNode => "settings fault 201\n",
        BallotFault::TooManyNodes => "settings fault 202\n",
        BallotFault::OverTotal => "settings fault 203\n",
        BallotFault::ReadsMissWrites => "settings fault 204\n",
        BallotFault::WritesMiss => "settings fault 205\n",
        BallotFault::BallotsMiss(_, _) => "settings fault 206\n",
        BallotFault::NoBallot => "settings fault 207\n",
        BallotFault::TooManyBallots => "settings fault 208\n",
    }
}

/// That numbers make no weather, told as wrong settings.
fn weather_text(fault: WeatherFault) -> &'static str
    ensures { result.now ≡ settings_fault_text (weather_fault_number fault) }
{
    match fault {
        WeatherFault::OverThousand => "settings fault 901\n",
    }
}

/// That a text is no wish, told as wrong settings.
fn wish_text(fault: LineFault) -> &'static str
    ensures { result.now ≡ settings_fault_text (line_fault_number fault) }
{
    match fault {
        LineFault::Word => "settings fault 801\n",
        LineFault::Actor => "settings fault 802\n",
        LineFault::Number => "settings fault 803\n",
        LineFault::Name => "settings fault 804\n",
        LineFault::Words => "settings fault 805\n",
    }
}

/// That settings are refused: a fixed text, so that want of memory can be told without memory.
fn settings_text(fault: SettingsFault) -> &'static str
    ensures { result.now ≡ settings_fault_text (settings_fault_number fault) }
{
    match fault {
        SettingsFault::NoDocument => "settings fault 921\n",
        SettingsFault::Value => "settings fault 922\n",
        SettingsFault::UnknownKey => "settings fault 923\n",
        SettingsFault::NoEnd => "settings fault 924\n",
        SettingsFault::Memory => "settings fault 925\n",
        SettingsFault::Ballot(fault) => ballot_text(fault),
        SettingsFault::Weather(fault) => weather_text(fault),
        SettingsFault::Wish(fault) => wish_text(fault),
    }
}

/// Prints a text, and answers the status that goes with it. The only fault is the writer's.
fn print<W: Write>(text: &[u8], status: u8, writer: &mut W) -> Result<u8, ServeFault>
    ensures { Prints (record { text = text.now; status = status }) (W.contents writer.old) (W.contents writer.new) result }
{
    match write_text(writer, text) {
        Ok(()) => Ok(status),
        Err(_) => Err(ServeFault::Write),
    }
}

/// Prints that settings are refused.
fn refuse_settings<W: Write>(fault: SettingsFault, writer: &mut W) -> Result<u8, ServeFault>
    ensures { Prints (refusal_output fault) (W.contents writer.old) (W.contents writer.new) result }
{
    print(settings_text(fault).as_bytes(), 2, writer)
}

/// That numbers make no ballot, told as the answer.
fn refused_ballot_text(fault: BallotFault) -> &'static str
    ensures { result.now ≡ refused_text (fault_number fault) }
{
    match fault {
        BallotFault::NoNode => "refused 201\n",
        BallotFault::TooManyNodes => "refused 202\n",
        BallotFault::OverTotal => "refused 203\n",
        BallotFault::ReadsMissWrites => "refused 204\n",
        BallotFault::WritesMiss => "refused 205\n",
        BallotFault::BallotsMiss(_, _) => "refused 206\n",
        BallotFault::NoBallot => "refused 207\n",
        BallotFault::TooManyBallots => "refused 208\n",
    }
}

/// Prints that the ballot which is asked for is none.
fn refuse_ballot<W: Write>(fault: BallotFault, writer: &mut W) -> Result<u8, ServeFault>
    ensures { Prints (refused_ballot_output (settings.Ballot fault)) (W.contents writer.old) (W.contents writer.new) result }
{
    print(refused_ballot_text(fault).as_bytes(), 1, writer)
}

/// Prints that settings are refused where the ballot is asked for.
fn refuse_asked<W: Write>(fault: SettingsFault, writer: &mut W) -> Result<u8, ServeFault>
    ensures { Prints (refused_ballot_output fault) (W.contents writer.old) (W.contents writer.new) result }
{
    match fault {
        SettingsFault::Ballot(fault) => refuse_ballot(fault, writer),
        SettingsFault::NoEnd
        | SettingsFault::NoDocument
        | SettingsFault::UnknownKey
        | SettingsFault::Value
        | SettingsFault::Memory => refuse_settings(fault, writer),
        SettingsFault::Weather(_) => refuse_settings(fault, writer),
        SettingsFault::Wish(_) => refuse_settings(fault, writer),
    }
}

/// Prints for a command that settings are refused.
fn refuse_for<W: Write>(
    command: Command,
    fault: SettingsFault,
    writer: &mut W,
) -> Result<u8, ServeFault>
    ensures { Prints (refused_output command fault) (W.contents writer.old) (W.contents writer.new) result }
{
    match command {
        Command::Script => refuse_settings(fault, writer),
        Command::Audit => refuse_settings(fault, writer),
        Command::Ballot => refuse_asked(fault, writer),
        Command::Run { .. } => refuse_settings(fault, writer),
    }
}

/// Ends a run that has no settings: prints which fault they have, with status 2, or 1 where the ballot is
/// asked for and the votes make none. The faults are that the reader failed (`Read`, 931) or the writer
/// (`Write`, 932); where settings are refused it is the writer alone: they are told without memory. After 932 a
/// beginning of what was to be told was written, and not all.
#[tactic(auto, using(crate::proofs::ServeFacts::fails_writing))]
pub fn refuse_start<W: Write>(
    command: Command,
    fault: StartFault,
    writer: &mut W,
) -> Result<u8, ServeFault>
    ensures told { RefusesStart command fault (W.contents writer.old) (W.contents writer.new) result }
    ensures faults { IfErr result IsCommonFault }
{
    match fault {
        StartFault::Read => Err(ServeFault::Read),
        StartFault::Settings(fault) => refuse_for(command, fault, writer),
    }
}

/// Ends a run: lets out what is still gathered. Where the run met a fault, it stays the run's answer;
/// after one of writing nothing more is written.
fn finish<W: Write>(
    came: Result<u8, ServeFault>,
    out: &mut Gathered,
    writer: &mut W,
) -> Result<u8, ServeFault>
    ensures told { Finishes (W.contents writer.old) (W.contents writer.new) out.old came result }
    ensures common { IfErr came IsCommonFault → IfErr result IsCommonFault }
{
    if let Err(ServeFault::Write) = came {
        return Err(ServeFault::Write);
    }
    if out.let_out(writer).is_ok() {
        return came;
    }
    match came {
        Ok(_) => Err(ServeFault::Write),
        Err(fault) => Err(fault),
    }
}

/// Does what the lines say and prints it, by way of what is gathered, which is nothing yet.
fn tell_gathered<R: Read, W: Write, V: Watcher>(
    alloc: Global,
    world: &mut World,
    source: &mut LineReader<R>,
    out: &mut Gathered,
    writer: &mut W,
    watcher: &mut V,
) -> Result<u8, ServeFault>
    requires { out.old ≡ [] }
    ensures told { WritesLines world.old source.old (W.contents writer.old) (W.contents writer.new) result }
    ensures heard { HearsAs (script_words world.old) source.old (V.heard watcher.old) (V.heard watcher.new) result }
    ensures common { IfErr result IsCommonFault }
{
    let came = tell_lines(alloc, world, source, out, writer, watcher);
    finish(came, out, writer)
}

/// Does what the lines say and prints it.
fn serve_lines<R: Read, W: Write, V: Watcher>(
    alloc: Global,
    world: &mut World,
    source: &mut LineReader<R>,
    writer: &mut W,
    watcher: &mut V,
) -> Result<u8, ServeFault>
    ensures told { WritesLines world.old source.old (W.contents writer.old) (W.contents writer.new) result }
    ensures heard { HearsAs (script_words world.old) source.old (V.heard watcher.old) (V.heard watcher.new) result }
    ensures common { IfErr result IsCommonFault }
{
    let Ok(mut out) = Box::new(alloc, Gathered::new()) else {
        return Err(ServeFault::Memory);
    };
    tell_gathered(alloc, world, source, &mut out, writer, watcher)
}

/// Runs a script.
fn serve_script<R: Read, W: Write, V: Watcher>(
    alloc: Global,
    settings: &Settings,
    policies: Policies,
    source: &mut LineReader<R>,
    writer: &mut W,
    watcher: &mut V,
) -> Result<u8, ServeFault>
    requires some_client { 1 ≤ settings.now.clients }
    requires few_clients { settings.now.clients ≤ MAX_CLIENTS }
    requires policies { length policies.pairs.items ≡ MAX_NODES }
    ensures told { WritesBehind command.Script settings.now source.old (W.contents writer.old) (W.contents writer.new) result }
    ensures heard { HearsAs (behind_words command.Script settings.now) source.old (V.heard watcher.old) (V.heard watcher.new) result }
    ensures common { IfErr result IsCommonFault }
{
    let Ok(mut world) = world_down(alloc, settings, policies) else {
        return Err(ServeFault::Memory);
    };
    if raise_all(&mut world, settings).is_err() {
        return Err(ServeFault::Memory);
    }
    serve_lines(alloc, &mut world, source, writer, watcher)
}

/// The status of a verdict.
fn verdict_status(verdict: Verdict) -> u8
    ensures { result ≡ verdict_status verdict }
{
    match verdict {
        Verdict::Sound(_) => 0,
        Verdict::Unsound(_, _) => 1,
    }
}

/// Judges the lines that are left, and prints the verdict.
fn judge<R: Read, W: Write, V: Watcher>(
    alloc: Global,
    world: World,
    source: &mut LineReader<R>,
    writer: &mut W,
    watcher: &mut V,
) -> Result<u8, ServeFault>
    requires { Unit {0} }
    ensures told { WritesVerdict world source.old (W.contents writer.old) (W.contents writer.new) result }
    ensures heard { HearsAs (journal_words world) source.old (V.heard watcher.old) (V.heard watcher.new) result }
{
    match audit_watched(alloc, world, source, writer, watcher) {
        Ok(verdict) => Ok(verdict_status(verdict)),
        Err(fault) => Err(ServeFault::Audit(fault)),
    }
}

/// Judges a journal.
fn serve_audit<R: Read, W: Write, V: Watcher>(
    alloc: Global,
    settings: &Settings,
    policies: Policies,
    source: &mut LineReader<R>,
    writer: &mut W,
    watcher: &mut V,
) -> Result<u8, ServeFault>
    requires some_client { 1 ≤ settings.now.clients }
    requires few_clients { settings.now.clients ≤ MAX_CLIENTS }
    requires policies { length policies.pairs.items ≡ MAX_NODES }
    ensures told { WritesBehind command.Audit settings.now source.old (W.contents writer.old) (W.contents writer.new) result }
    ensures heard { HearsAs (behind_words command.Audit settings.now) source.old (V.heard watcher.old) (V.heard watcher.new) result }
{
    let Ok(world) = world_down(alloc, settings, policies) else {
        return Err(ServeFault::Memory);
    };
    judge(alloc, world, source, writer, watcher)
}

/// Prints what each ballot is.
#[tactic(auto, using(crate::proofs::ServeFacts::printed, crate::proofs::ServeFacts::fails_writing))]
fn serve_ballots<W: Write>(
    alloc: Global,
    ballots: &BallotList,
    writer: &mut W,
) -> Result<u8, ServeFault>
    ensures told { Writes (record { text = ballots_text ballots.now; status = 0 }) (W.contents writer.old) (W.contents writer.new) result }
    ensures common { IfErr result IsCommonFault }
{
    let mut text = String::new(alloc);
    if push_ballots(&mut text, ballots).is_err() {
        return Err(ServeFault::Memory);
    }
    print(text.as_bytes(), 0, writer)
}

/// Does what the order says with the lines that are left behind the settings.
#[tactic(auto, using(crate::proofs::ServeFacts::any_fault))]
fn serve_behind<R: Read, W: Write, V: Onlooker>(
    alloc: Global,
    order: Order,
    settings: &Settings,
    source: &mut LineReader<R>,
    writer: &mut W,
    watcher: &mut V,
) -> Result<u8, ServeFault>
    requires some_client { 1 ≤ settings.now.clients }
    requires few_clients { settings.now.clients ≤ MAX_CLIENTS }
    requires policies { length order.policies.pairs.items ≡ MAX_NODES }
    requires served { IsServed order.command }
    ensures told { WritesBehind order.command settings.now source.old (W.contents writer.old) (W.contents writer.new) result }
    ensures heard { HearsAs (behind_words order.command settings.now) source.old (V.heard watcher.old) (V.heard watcher.new) result }
    ensures faults { IfErr result (MayEndBy order.command) }
{
    let Order { command, policies } = order;
    match command {
        Command::Script => serve_script(alloc, settings, policies, source, writer, watcher),
        Command::Audit => serve_audit(alloc, settings, policies, source, writer, watcher),
        Command::Ballot => serve_ballots(alloc, &settings.ballots, writer),
        Command::Run { .. } => unreachable!(),
    }
}

/// Shows that there are no settings, where it is they that are at fault.
fn show_fault<V: Onlooker>(head: &[u8], fault: StartFault, onlooker: &mut V)
    ensures { V.heard onlooker.new ≡ V.heard onlooker.old }
{
    if let StartFault::Settings(fault) = fault {
        onlooker.see_refused(head, fault);
    }
}

/// Does what the order says with the bytes of the source.
fn serve_source<R: Read, W: Write, V: Onlooker>(
    alloc: Global,
    order: Order,
    source: &mut LineReader<R>,
    writer: &mut W,
    watcher: &mut V,
) -> Result<u8, ServeFault>
    requires policies { length order.policies.pairs.items ≡ MAX_NODES }
    requires served { IsServed order.command }
    ensures output { Serves order.command source.old (W.contents writer.old) (W.contents writer.new) result }
    ensures heard { HearsInput order.command source.old (V.heard watcher.old) (V.heard watcher.new) result }
    ensures faults { IfErr result (MayEndBy order.command) }
{
    let mut head = Vec::new(alloc);
    let start = match read_start(alloc, order.command, source, &mut head) {
        Ok(start) => start,
        Err(fault) => {
            show_fault(head.as_slice(), fault, watcher);
            return refuse_start(order.command, fault, writer);
        }
    };
    watcher.see_settings(head.as_slice(), &start.settings);
    serve_behind(alloc, order, &start.settings, source, writer, watcher)
}

/// Serves an order as `serve` does, and shows an onlooker what is met: why settings are refused, or the settings, and
/// then what each line came to. What is answered and written doesn't depend on it.
///
/// # Errors
///
/// Those of `serve`.
pub fn serve_watched<R: Read, W: Write, V: Onlooker>(
    alloc: Global,
    order: Order,
    reader: R,
    writer: &mut W,
    watcher: &mut V,
) -> Result<u8, ServeFault>
where
    R: Drop,
    requires policies { length order.policies.pairs.items ≡ MAX_NODES }
    requires served { IsServed order.command }
    ensures output { Serves order.command (R.remaining reader) (W.contents writer.old) (W.contents writer.new) result }
    ensures heard { HearsInput order.command (R.remaining reader) (V.heard watcher.old) (V.heard watcher.new) result }
    ensures faults { IfErr result (MayEndBy order.command) }
{
    // Room for what is read ahead is made on the heap: the stack may be small.
    let Ok(mut source) = Box::new(alloc, LineReader::new(reader, MAX_READS)) else {
        return refuse_start(
            order.command,
            StartFault::Settings(SettingsFault::Memory),
            writer,
        );
    };
    serve_source(alloc, order, &mut source, writer, watcher)
}

/// Does what the order says with the bytes of the reader, and answers the status of the program.
///
/// The bytes begin with settings, a TOML document. Its keys `votes`, `read`, `write`, `problem`,
/// `clients` and `more` tell of the world, and `ballot` needs the first three alone; `more` has other
/// ballots. `seed`, `lose`, `twice`, `late` and `wishes` tell of a run: every command reads and judges
/// them, and none here uses them. The first line that is exactly `---` ends the settings. Refused ones
/// print `settings fault N` and nothing else, and the status is 2.
///
/// - `Script`: every node and then every client rises with nothing kept, which prints nothing. Each line
///   behind the settings is an event, which prints its effect, one line for each reply that a node says
///   and none where it has no reply, or `refused N`; or a query, `inside NAME`, `waiting nN NAME` or
///   `holding nN NAME`, which prints the tickets, or `refused 601` for a node that isn't there. A line
///   that is neither prints `line L fault N` (lines count from 1) and is the last. The status is 1 where
///   an event or a query was refused or a line was bad, else 0.
/// - `Audit`: the lines behind the settings are a journal from the world in which all actors are down.
///   They are judged as they come, as `journal_audit::audit` does it, and the verdict's line is printed.
///   The status is 0 where the journal is sound, else 1.
/// - `Ballot`: what stands behind the settings is ignored. It prints `total T read R write W` for
///   each ballot, in order, and the status is 0; or `refused N` and 1 where the votes make no ballot (201
///   to 205) or the ballots no list (206 to 208), which is no fault of the settings here.
///
/// Contracts speak of what the reader has left and of what the writer holds, where these are known.
/// What is written is the command's output of the bytes that were left, or `settings fault 925` where
/// memory was refused for the settings. The settings' problem is the first one of every node, which an
/// event may switch. The caller owes sixteen pairs of policies: the nodes get, in order, the first of
/// them, and the others are dropped. It also owes an order for one of these three commands: `Run` takes
/// threads, and is served by a call of its own (`run_service::serve_run`). The texts are our own.
///
/// # Errors
///
/// `Read` (931) where the reader fails or 600,000,000 reads were made, `Write` (932) where the writer
/// fails or takes nothing, `Memory` (933) where memory was refused. Once the world of a journal stands,
/// the faults are those of the audit, `Audit` (816 to 819), and no other command ends by one of these; 819
/// comes just where the verdict would speak of a line behind the greatest number. A read or a write that a
/// signal interrupts is made again. After a fault a beginning of the output was written.
/// It reads by value and writes by &mut, because only what the writer holds afterwards is spoken of.
pub fn serve<R: Read, W: Write>(
    alloc: Global,
    order: Order,
    reader: R,
    writer: &mut W,
) -> Result<u8, ServeFault>
where
    R: Drop,
    requires policies { length order.policies.pairs.items ≡ MAX_NODES }
    requires served { IsServed order.command }
    ensures output { Serves order.command (R.remaining reader) (W.contents writer.old) (W.contents writer.new) result }
    ensures faults { IfErr result (MayEndBy order.command) }
{
    serve_watched(alloc, order, reader, writer, &mut Unwatched)
}

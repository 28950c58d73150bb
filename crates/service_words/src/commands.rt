// The commands of a service, as they are declared to `clap`.

ghost use Rattle.std.specs.Prelude.{◌≡◌, IfOk, false, codes};
ghost use Rattle.clap.specs.Words.{shape_of, app_of};
ghost use Rattle.clap.specs.declared.builder.command.Command.TheViews.{out-Command};
ghost use Rattle.clap_arguments.specs.Arguments.{adding, word_rule};
ghost use Rattle.service_words.specs.Shapes.{init_shape, journaled, node_shape, bare_client_shape, client_shape, reap_shape, status_shape, switch_shape, with_actors, with_services};

use crate::help::{CLIENT_HELP, FOLDER, INIT_HELP, NODE_HELP, REAP_HELP, STATUS_HELP, SWITCH_HELP};
use clap::Command;
use clap_arguments::{
    command_below, flag, option_argument, with_argument, word_argument, words_argument,
};
use std::alloc::{AllocError, Global};

/// The command with the directory of a service.
fn with_folder<'a>(alloc: Global, command: Command<'a>) -> Result<Command<'a>, AllocError>
    requires { (out-Command command).has_globals ≡ false }
    ensures shape { IfOk result (λ c. shape_of c ≡ adding (shape_of command.entry) (word_rule (codes "folder"))) }
    ensures local { IfOk result (λ c. (out-Command c).has_globals ≡ false) }
{
    with_argument(command, word_argument(alloc, "folder", "DIR", FOLDER))
}

/// The command with the flags of a journal.
fn with_journal<'a>(alloc: Global, command: Command<'a>) -> Result<Command<'a>, AllocError>
    requires { (out-Command command).has_globals ≡ false }
    ensures shape { IfOk result (λ c. shape_of c ≡ journaled (shape_of command.entry)) }
    ensures local { IfOk result (λ c. (out-Command c).has_globals ≡ false) }
{
    let none = flag(alloc, "no-journal", "Writes no journal");
    let with_none = with_argument(command, none)?;
    let synced = flag(alloc, "sync-journal", "Syncs each line of the journal");
    let with_synced = with_argument(with_none, synced)?;
    Ok(with_synced)
}

/// The command that makes a service.
fn init_below<'a>(alloc: Global) -> Result<Command<'a>, AllocError>
    ensures shape { IfOk result (λ c. shape_of c ≡ init_shape) }
    ensures local { IfOk result (λ c. (out-Command c).has_globals ≡ false) }
{
    let bare = command_below(alloc, "init", "Makes a service in a directory", INIT_HELP);
    let with_folder = with_folder(alloc, bare)?;
    let actors = option_argument(
        alloc,
        "actors",
        "LIST",
        "The actors of this machine, as in n1,c1-c16. All by default",
    );
    let with_actors = with_argument(with_folder, actors)?;
    let secret = option_argument(
        alloc,
        "secret",
        "FILE",
        "The secret of the service, at least 32 bytes. A new one by default",
    );
    with_argument(with_actors, secret)
}

/// The command that runs a node.
fn node_below<'a>(alloc: Global) -> Result<Command<'a>, AllocError>
    ensures shape { IfOk result (λ c. shape_of c ≡ node_shape) }
    ensures local { IfOk result (λ c. (out-Command c).has_globals ≡ false) }
{
    let bare = command_below(alloc, "node", "Runs a node of a service", NODE_HELP);
    let number = word_argument(alloc, "number", "N", "The number of the node, 1 to 16");
    let with_number = with_argument(bare, number)?;
    let with_folder = with_folder(alloc, with_number)?;
    let pipes = flag(
        alloc,
        "pipes",
        "Reads lines on standard input, and writes lines to standard output",
    );
    let with_pipes = with_argument(with_folder, pipes)?;
    with_journal(alloc, with_pipes)
}

/// The command that runs a client, without the flags of its journal.
fn bare_client_below<'a>(alloc: Global) -> Result<Command<'a>, AllocError>
    ensures shape { IfOk result (λ c. shape_of c ≡ bare_client_shape) }
    ensures local { IfOk result (λ c. (out-Command c).has_globals ≡ false) }
{
    let bare = command_below(alloc, "client", "Runs a client of a service", CLIENT_HELP);
    let words = words_argument(
        alloc,
        "words",
        "DIR",
        "The number of the client, 1 to 1024, if it is given, and the directory of the service",
    );
    let with_words = with_argument(bare, words)?;
    let pipes = flag(
        alloc,
        "pipes",
        "Reads lines on standard input, and writes lines to standard output",
    );
    let with_pipes = with_argument(with_words, pipes)?;
    let commands = option_argument(
        alloc,
        "commands",
        "FILE",
        "With --pipes: reads commands here",
    );
    let with_commands = with_argument(with_pipes, commands)?;
    let answers = option_argument(
        alloc,
        "answers",
        "FILE",
        "With --pipes: writes answers here",
    );
    with_argument(with_commands, answers)
}

/// The command that runs a client.
fn client_below<'a>(alloc: Global) -> Result<Command<'a>, AllocError>
    ensures shape { IfOk result (λ c. shape_of c ≡ client_shape) }
    ensures local { IfOk result (λ c. (out-Command c).has_globals ≡ false) }
{
    let bare = bare_client_below(alloc)?;
    with_journal(alloc, bare)
}

/// The command that releases what dead clients hold.
fn reap_below<'a>(alloc: Global) -> Result<Command<'a>, AllocError>
    ensures shape { IfOk result (λ c. shape_of c ≡ reap_shape) }
    ensures local { IfOk result (λ c. (out-Command c).has_globals ≡ false) }
{
    let bare = command_below(alloc, "reap", "Releases what dead clients hold", REAP_HELP);
    let with_folder = with_folder(alloc, bare)?;
    let every = option_argument(
        alloc,
        "every",
        "SECONDS",
        "Looks again after so many seconds",
    );
    with_argument(with_folder, every)
}

/// The command that shows a service.
fn status_below<'a>(alloc: Global) -> Result<Command<'a>, AllocError>
    ensures shape { IfOk result (λ c. shape_of c ≡ status_shape) }
    ensures local { IfOk result (λ c. (out-Command c).has_globals ≡ false) }
{
    let bare = command_below(alloc, "status", "Shows a service", STATUS_HELP);
    with_folder(alloc, bare)
}

/// The command that lets a node take a problem.
fn switch_below<'a>(alloc: Global) -> Result<Command<'a>, AllocError>
    ensures shape { IfOk result (λ c. shape_of c ≡ switch_shape) }
    ensures local { IfOk result (λ c. (out-Command c).has_globals ≡ false) }
{
    let bare = command_below(alloc, "switch", "Lets a node take a problem", SWITCH_HELP);
    let number = word_argument(alloc, "number", "N", "The number of the node, 1 to 16");
    let with_number = with_argument(bare, number)?;
    let problem = word_argument(alloc, "problem", "PROBLEM", "1 or 2");
    let with_problem = with_argument(with_number, problem)?;
    let with_folder = with_folder(alloc, with_problem)?;
    let pipes = flag(
        alloc,
        "pipes",
        "Writes the line that asks the node to standard output, and does nothing else",
    );
    with_argument(with_folder, pipes)
}

/// The program with the commands that make a service and run its actors.
fn with_actors<'a>(alloc: Global, program: Command<'a>) -> Result<Command<'a>, AllocError>
    requires { Unit {0} }
    ensures { IfOk result (λ c. app_of c ≡ with_actors (app_of program.entry)) }
{
    let init = init_below(alloc)?;
    let with_init = program.subcommand(init)?;
    let node = node_below(alloc)?;
    let with_node = with_init.subcommand(node)?;
    let client = client_below(alloc)?;
    let with_client = with_node.subcommand(client)?;
    Ok(with_client)
}

/// The program with the commands of services. The only error is that memory ran out.
pub fn with_services<'a>(alloc: Global, program: Command<'a>) -> Result<Command<'a>, AllocError>
    requires { Unit {0} }
    ensures { IfOk result (λ c. app_of c ≡ with_services (app_of program.entry)) }
{
    let actors = with_actors(alloc, program)?;
    let reap = reap_below(alloc)?;
    let with_reap = actors.subcommand(reap)?;
    let status = status_below(alloc)?;
    let with_status = with_reap.subcommand(status)?;
    let switch = switch_below(alloc)?;
    let with_switch = with_status.subcommand(switch)?;
    Ok(with_switch)
}

// The commands that run a node or a client, or switch a node.

use program_ends::Ended;
use service_programs::{
    self, ClientWork, NodeWork, Pipes, SwitchWork, run_client_program, run_node_program,
    switch_node,
};
use service_words::{ClientWords, Journaling, NodeWords, SwitchWords};
use std::alloc::Global;
use std::fs::{File, Files};
use std::io::{Read, Write};
use std::sync::Wait;
use std::thread::Threads;
use std::time::Clock;

/// The same as the programs have it.
fn journaling_of(journal: Journaling) -> service_programs::Journaling {
    match journal {
        Journaling::Written => service_programs::Journaling::Written,
        Journaling::Synced => service_programs::Journaling::Synced,
        Journaling::None => service_programs::Journaling::Unwritten,
    }
}

/// Runs a node.
pub(crate) fn run_node<
    T: Threads + Wait + Clock + Files<File = File> + Copy + Send + Drop + 'static,
    R: Read + Send + Drop + 'static,
    W: Write,
    E: Write,
>(rt: T, alloc: Global, words: &NodeWords<'_>, reader: R, output: &mut W, errors: &mut E) -> Ended
    requires { Unit {0} }
{
    let work = NodeWork {
        node: words.number,
        folder: words.folder,
        pipes: words.pipes,
        journaling: journaling_of(words.journal),
    };
    run_node_program(rt, alloc, &work, reader, output, errors)
}

/// Runs a client.
pub(crate) fn run_client<
    T: Threads + Wait + Clock + Files<File = File> + Copy + Send + Drop + 'static,
    R: Read + Send + Drop + 'static,
    W: Write,
    E: Write,
>(rt: T, alloc: Global, words: &ClientWords<'_>, reader: R, output: &mut W, errors: &mut E) -> Ended
    requires { Unit {0} }
{
    let pipes = match (words.commands, words.answers) {
        (Some(commands), Some(answers)) => Some(Pipes { commands, answers }),
        _ => None,
    };
    let work = ClientWork {
        client: words.number,
        folder: words.folder,
        pipes,
        journaling: journaling_of(words.journal),
    };
    run_client_program(rt, alloc, &work, reader, output, errors)
}

/// Lets a node take a problem.
pub(crate) fn run_switch<T: Wait + Clock + Files<File = File> + Copy + Drop, W: Write, E: Write>(
    rt: T,
    alloc: Global,
    words: &SwitchWords<'_>,
    output: &mut W,
    errors: &mut E,
) -> Ended
    requires { Unit {0} }
{
    let work = SwitchWork {
        node: words.number,
        problem: words.problem,
        folder: words.folder,
        pipes: words.pipes,
    };
    switch_node(rt, alloc, &work, output, errors)
}

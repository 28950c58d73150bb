// How the end of a run is told.

ghost use Rattle.std.specs.Prelude.{◌≡◌, ◌++◌, length, OnOk, string_bytes};
ghost use Rattle.std.specs.List.{flat_map};
ghost use Rattle.history_book.specs.Books.{enters};
ghost use Rattle.run_service.specs.Ends.{fault_line, counts_text, end_text, end_status};

use event_recorders::RunFault;
use lock_messages::Actor;
use node_threads::RunEnd;
use std::alloc::AllocError;

/// Adds the line of an actor that ended by a fault.
fn push_fault(text: &mut String, actor: &Actor, fault: RunFault) -> Result<(), AllocError>
    ensures { OnOk result (string_bytes text.new ≡ string_bytes text.old ++ fault_line (actor.now, fault)) }
{
    let number = fault.number();
    writeln!(text, "{actor} fault {number}")
}

/// Adds the lines of those that ended by faults.
fn push_faults(text: &mut String, faults: &[(Actor, RunFault)]) -> Result<(), AllocError>
    ensures { OnOk result (string_bytes text.new ≡ string_bytes text.old ++ flat_map fault_line faults.now) }
{
    for (actor, fault) in faults {
        push_fault(text, actor, *fault)?;
    }
    Ok(())
}

/// Adds how often a resource was entered, and how many events there were.
fn push_counts(text: &mut String, entered: u32, events: u32) -> Result<(), AllocError>
    ensures { OnOk result (string_bytes text.new ≡ string_bytes text.old ++ counts_text entered events) }
{
    writeln!(text, "entered {entered}")?;
    writeln!(text, "events {events}")
}

/// Adds what is told of the end of a run. The only error is want of memory; then a part may have been added.
pub fn push_end(text: &mut String, end: &RunEnd) -> Result<(), AllocError>
    requires { end.now.entered ≡ enters end.now.book.history }
    ensures { OnOk result (string_bytes text.new ≡ string_bytes text.old ++ end_text end.now.book.history end.now.faults.items) }
{
    push_counts(text, end.entered, end.book.events())?;
    push_faults(text, end.faults.as_slice())
}

/// The status of a run in which these ended by faults.
pub fn status_of(faults: &[(Actor, RunFault)]) -> u8
    ensures { result ≡ end_status faults.now }
{
    if faults.is_empty() { 0 } else { 1 }
}

// What a program says when it ends, and its status.

use event_recorders::RunFault;
use fault_numbers::meaning_of;
use file_plate::FileFault;
use line_streams::write_text;
use lock_messages::Actor;
use program_ends::{Ended, say};
use service_ends::tell_service_fault;
use service_folders::{ServiceFault, record_path};
use std::alloc::{AllocError, Global};
use std::io::Write;

/// What is said of the file of an actor's record that could not be opened.
fn record_text(
    alloc: Global,
    folder: &str,
    actor: Actor,
    fault: FileFault,
) -> Result<String, AllocError> {
    let path = record_path(alloc, folder, actor)?;
    match fault {
        FileFault::Missing => format!(in alloc;
            "{path}: restore this very file. A new record or an older copy would forget what {actor} has promised.\n"
        ),
        _ => format!(in alloc; "{path}: the record of {actor}\n"),
    }
}

/// Says why an actor can't be started. If it is its record, it names the file.
pub(crate) fn end_unstarted<E: Write>(
    alloc: Global,
    folder: &str,
    actor: Option<Actor>,
    fault: ServiceFault,
    errors: &mut E,
) -> Ended {
    let ended = tell_service_fault(alloc, fault, errors);
    if let (ServiceFault::Record(of_file), Some(actor)) = (fault, actor)
        && let Ok(text) = record_text(alloc, folder, actor, of_file)
    {
        let _ = write_text(errors, text.as_bytes());
    }
    ended
}

/// Says that the bytes of an actor's record can't be read: `fault N`.
pub(crate) fn end_unreadable<E: Write>(
    alloc: Global,
    actor: Actor,
    number: u16,
    errors: &mut E,
) -> Ended {
    match format!(in alloc; "{actor} fault {number}: the record is not one of this actor\n") {
        Ok(text) => say(1, text.as_str(), errors),
        Err(_) => say(1, "fault 933\n", errors),
    }
}

/// Says how the life of an actor ended: nothing if it ended well, else `n1 fault 911`.
pub(crate) fn end_life<E: Write>(
    alloc: Global,
    actor: Actor,
    ended: Option<RunFault>,
    errors: &mut E,
) -> Ended {
    let Some(fault) = ended else {
        return Ended {
            status: 0,
            told: true,
        };
    };
    let number = fault.number();
    let meaning = meaning_of(number);
    match format!(in alloc; "{actor} fault {number}: {meaning}\n") {
        Ok(text) => say(1, text.as_str(), errors),
        Err(_) => say(1, "fault 933\n", errors),
    }
}

/// The end of a program that has no memory and no writer left to say so.
pub(crate) fn lacking_memory() -> Ended {
    Ended {
        status: 1,
        told: false,
    }
}

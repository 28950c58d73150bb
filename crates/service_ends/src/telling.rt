// What is said of a fault of a service.

ghost use Rattle.std.specs.Prelude.{◌≡◌, IfOk, string_bytes};
ghost use Rattle.service_ends.specs.ServiceEnds.{status_of, fault_head, fault_text, TellsService};

use fault_numbers::meaning_of;
use operator_cli::ServeFault;
use program_ends::{Ended, say, tell_fault};
use service_folders::ServiceFault;
use std::alloc::{AllocError, Global};
use std::io::Write;

/// The status of a fault: 2 if the settings are refused, else 1.
fn status_of(fault: ServiceFault) -> u8
    ensures { result ≡ status_of fault }
{
    match fault {
        ServiceFault::Settings(_) => 2,
        _ => 1,
    }
}

/// What is said before the number.
fn fault_head(fault: ServiceFault) -> &'static str
    ensures { result.now ≡ fault_head fault }
{
    match fault {
        ServiceFault::Settings(_) => "settings fault ",
        _ => "fault ",
    }
}

/// What is said of a fault.
fn fault_text(alloc: Global, fault: ServiceFault) -> Result<String, AllocError>
    ensures { IfOk result (λ text. string_bytes text ≡ fault_text fault) }
{
    let head = fault_head(fault);
    let number = fault.number();
    let meaning = meaning_of(number);
    let mut text = String::new(alloc);
    write!(text, "{head}{number}: {meaning}\n")?;
    Ok(text)
}

/// Says a fault, such as `fault 963: not a service's directory: it has no settings`, and ends with status 1. If settings
/// are refused it says `settings fault N`, and the status is 2. If memory runs out it says `fault 933`, with status 1.
pub fn tell_service_fault<E: Write>(alloc: Global, fault: ServiceFault, errors: &mut E) -> Ended
    ensures { TellsService fault (E.contents errors.old) (E.contents errors.new) result }
{
    match fault_text(alloc, fault) {
        Ok(text) => say(status_of(fault), text.as_str(), errors),
        Err(_) => tell_fault(ServeFault::Memory, errors),
    }
}

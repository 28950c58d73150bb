// A service of three nodes, a vote each, of which two are enough.

ghost use Rattle.std.specs.Prelude.{◌≤◌};
ghost use Rattle.lock_messages.specs.declared.ids.TheConstants.{MAX_CLIENTS};

use event_recorders::RunFault;
use lock_model::Problem;
use own_threads::{OwnWork, run_own_in_memory};
use std::alloc::Global;
use std::sync::Wait;
use std::thread::Threads;
use test_outcomes::{Failure, Outcome, check_row};
use test_support::{ballots_of, weather};

/// Nothing is lost, repeated or delayed.
pub(crate) const FAIR: (u64, u16, u16, u16) = (1, 0, 0, 0);

/// Runs the service with the work inside, and ends the test if an actor ended by a fault.
pub(crate) fn run<R: Threads + Wait + Copy + Send, J: OwnWork + Sync>(
    rt: R,
    alloc: Global,
    clients: u16,
    odds: (u64, u16, u16, u16),
    work: &J,
) -> Outcome
    requires { clients ≤ MAX_CLIENTS }
{
    let ballots = ballots_of(&[1, 1, 1], 2, 2)?;
    let weather = weather(odds)?;
    let Ok(end) = run_own_in_memory(rt, alloc, ballots, Problem::Second, clients, &weather, work)
    else {
        return Err(Failure::Memory);
    };
    let had_memory = end
        .nodes
        .iter()
        .all(|fault| *fault != Some(RunFault::Memory))
        && end
            .clients
            .iter()
            .all(|client| client.fault != Some(RunFault::Memory));
    if !had_memory {
        return Err(Failure::Memory);
    }
    check_row(end.nodes.len() == 3, 101)?;
    check_row(end.clients.len() == usize::from(clients), 102)?;
    check_row(end.nodes.iter().all(|fault| fault.is_none()), 103)?;
    check_row(end.clients.iter().all(|client| client.fault.is_none()), 104)
}

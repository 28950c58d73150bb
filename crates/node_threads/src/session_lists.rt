// The sessions of all clients, and how they ended, in order.

ghost use Rattle.std.specs.Prelude.{◌≡◌, ◌≢◌, ◌≤◌, ◌⊎◌, ◌++◌, map, All, IfOk, IfErr, IfNone, IfSome};
ghost use Rattle.std.specs.List.{filter_map, range_with_len};
ghost use Rattle.lock_messages.specs.declared.ids.TheConstants.{MAX_CLIENTS};
ghost use Rattle.lock_model.specs.Decisions.{Among};
ghost use Rattle.lock_session.specs.Sessions.{IsResting};
ghost use Rattle.node_threads.specs.SessionEnds.{session_fault};
ghost use Rattle.node_threads.specs.Sessions.{AreDivided, IsSessionEnd};
ghost use Rattle.node_threads.specs.Tasks.{IsClientBerth};

use crate::session_ends::{BookSession, SessionEnd, begin_session, end_session};
use crate::session_tasks::SessionTask;
use book_recorders::{BookName, Logs, Named};
use event_recorders::RunFault;
use history_book::Berth;
use lock_messages::{Actor, ClientId};
use lock_session::OwnRecord;
use std::alloc::Global;
use std::sync::{Mutex, Wait};
use vote_weights::BallotList;

/// The sessions of the clients that rise, in order; and how those ended whose client doesn't.
pub(crate) fn begin_all<'a, B: BookName, K: Logs, S: OwnRecord, R: Wait + Copy>(
    rt: R,
    alloc: Global,
    ballots: BallotList,
    tasks: Vec<SessionTask<S, R>>,
    book: &'a Mutex<Named<B, K>>,
) -> Result<(Vec<BookSession<'a, B, K, S, R>>, Vec<SessionEnd<S>>), RunFault>
    requires tasks { All (λ t. IsClientBerth B.table t.client ballots t.berth (S.StableRecord.finds t.stable)) tasks.items }
    ensures rest { IfOk result (λ r. All IsResting r.0.items) }
    ensures ballots { IfOk result (λ r. All (λ s. s.ballots ≡ ballots) r.0.items) }
    // Each client has a session, or ended by a fault.
    ensures all { IfOk result (λ r. AreDivided (map (λ t. t.client) tasks.items) (map (λ s. s.client) r.0.items) (map (λ e. e.client) r.1.items)) }
    ensures told { IfOk result (λ r. All (λ e. IfNone e.fault ⊥) r.1.items) }
    ensures tables { IfOk result (λ r. All (λ e. e.berth.table ≡ B.table) r.1.items) }
    ensures ends { IfOk result (λ r. All (λ e. IsSessionEnd e.client e.fault e.berth (S.StableRecord.finds e.stable)) r.1.items) }
    ensures err { IfErr result (λ f. f ≡ RunFault.Memory) }
{
    let mut sessions = Vec::new(alloc);
    let mut ends = Vec::new(alloc);
    for task in tasks {
        match begin_session(rt, ballots, task, book) {
            Ok(session) => {
                let Ok(()) = sessions.push(session) else {
                    return Err(RunFault::Memory);
                };
            }
            Err(end) => {
                let Ok(()) = ends.push(end) else {
                    return Err(RunFault::Memory);
                };
            }
        }
    }
    Ok((sessions, ends))
}

/// Settles these sessions and takes them apart, one after the other; behind the ends that there are.
pub(crate) fn end_all<B: BookName, K: Logs, S: OwnRecord, R: Wait + Copy>(
    rt: R,
    alloc: Global,
    ends: Vec<SessionEnd<S>>,
    sessions: Vec<BookSession<'_, B, K, S, R>>,
) -> Result<Vec<SessionEnd<S>>, RunFault>
    requires tables { All (λ e. e.berth.table ≡ B.table) ends.items }
    requires ends { All (λ e. IsSessionEnd e.client e.fault e.berth (S.StableRecord.finds e.stable)) ends.items }
    ensures clients { IfOk result (λ all. map (λ e. e.client) all.items ≡ map (λ e. e.client) ends.items ++ map (λ s. s.client) sessions.entry.items) }
    ensures tables { IfOk result (λ all. All (λ e. e.berth.table ≡ B.table) all.items) }
    ensures ends { IfOk result (λ all. All (λ e. IsSessionEnd e.client e.fault e.berth (S.StableRecord.finds e.stable)) all.items) }
    ensures err { IfErr result (λ f. f ≡ RunFault.Memory) }
{
    let mut ends = ends;
    for session in sessions {
        let Ok(()) = ends.push(end_session(rt, alloc, session)) else {
            return Err(RunFault::Memory);
        };
    }
    Ok(ends)
}

/// Takes an end of this client out of the list, where one is there.
fn take_end<S: Drop>(ends: &mut Vec<SessionEnd<S>>, client: ClientId) -> Option<SessionEnd<S>>
    ensures some { IfSome result (λ e. (e.client ≡ client) × Among e ends.old.items) }
    ensures none { IfNone result (All (λ e. e.client ≢ client) ends.old.items) }
    ensures left { All (λ e. Among e ends.old.items) ends.new.items }
    ensures others { All (λ e. (e.client ≡ client) ⊎ Among e ends.new.items) ends.old.items }
{
    for place in 0..ends.len() {
        if ends[place].client == client {
            return Some(ends.remove(place));
        }
    }
    None
}

/// The ends of so many clients, one of each, in the order of clients. There is one of each here.
/// Only what holds of each session is known of one that was in a thread, so it counts by the client whose log it has.
pub(crate) fn in_order<S: Drop>(
    alloc: Global,
    clients: u32,
    ends: Vec<SessionEnd<S>>,
) -> Result<Vec<SessionEnd<S>>, RunFault>
    requires few { clients ≤ MAX_CLIENTS }
    requires whole { All (λ n. Among n (map (λ e. e.client) ends.items)) (range_with_len 1 clients) }
    ensures clients { IfOk result (λ ordered. map (λ e. e.client) ordered.items ≡ range_with_len 1 clients) }
    ensures those { IfOk result (λ ordered. All (λ e. Among e ends.items) ordered.items) }
    ensures err { IfErr result (λ f. f ≡ RunFault.Memory) }
{
    let mut left = ends;
    let mut ordered = Vec::new(alloc);
    for place in 0..clients {
        let Some(client) = ClientId::of(place + 1) else {
            unreachable!()
        };
        let Some(end) = take_end(&mut left, client) else {
            unreachable!()
        };
        let Ok(()) = ordered.push(end) else {
            return Err(RunFault::Memory);
        };
    }
    Ok(ordered)
}

/// The clients whose sessions ended by faults, with these, in order.
pub(crate) fn session_faults<S>(
    alloc: Global,
    ends: &[SessionEnd<S>],
) -> Result<Vec<(Actor, RunFault)>, RunFault>
    ensures faults { IfOk result (λ faults. faults.items ≡ filter_map session_fault ends.now) }
    ensures err { IfErr result (λ f. f ≡ RunFault.Memory) }
{
    let mut faults = Vec::new(alloc);
    for end in ends {
        if let Some(fault) = end.fault {
            let Ok(()) = faults.push((Actor::Client(end.client), fault)) else {
                return Err(RunFault::Memory);
            };
        }
    }
    Ok(faults)
}

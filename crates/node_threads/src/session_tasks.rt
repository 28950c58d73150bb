// What each client's session is made of: its berth, its record and its link.

ghost use Rattle.std.specs.Prelude.{◌≡◌, ◌≤◌, length, map, All, IfOk, IfErr};
ghost use Rattle.std.specs.List.{range_with_len};
ghost use Rattle.lock_messages.specs.declared.ids.TheConstants.{MAX_CLIENTS};
ghost use Rattle.node_threads.specs.Actors.{IsClientReady, AreClientsReady};
ghost use Rattle.node_threads.specs.Tasks.{IsClientBerth};

use crate::berths::berth_of;
use event_recorders::RunFault;
use history_book::{Berth, Book};
use lock_messages::{Actor, ClientId};
use lock_session::OwnRecord;
use lossy_link::ChannelLink;
use std::alloc::Global;
use std::sync::Wait;

/// What a client's session is made of.
#[derive(Drop)]
pub(crate) struct SessionTask<S, R: Wait + Copy> {
    pub(crate) client: ClientId,
    pub(crate) berth: Berth,
    pub(crate) stable: S,
    pub(crate) link: ChannelLink<R>,
}

/// What the session of a client is made of.
#[tactic(auto, using(crate::proofs::Ready::client_berth))]
fn session_task<S: OwnRecord, R: Wait + Copy>(
    book: &mut Book,
    client: ClientId,
    stable: S,
    link: ChannelLink<R>,
) -> Result<SessionTask<S, R>, RunFault>
    requires { IsClientReady book.old.opening client (S.StableRecord.finds stable) }
    ensures task { IfOk result (λ task. IsClientBerth book.old.table task.client book.old.opening.ballots task.berth (S.StableRecord.finds task.stable)) }
    ensures client { IfOk result (λ task. task.client ≡ client) }
    ensures link { IfOk result (λ task. task.link ≡ link) }
    ensures table { IfOk result (λ _. book.new.table ≡ book.old.table) }
    ensures opening { IfOk result (λ _. book.new.opening ≡ book.old.opening) }
    ensures err { IfErr result (λ f. f ≡ RunFault.Memory) }
{
    let berth = berth_of(book, Actor::Client(client))?;
    Ok(SessionTask {
        client,
        berth,
        stable,
        link,
    })
}

/// What the sessions of all clients are made of, in order.
pub(crate) fn session_tasks<S: OwnRecord, R: Wait + Copy>(
    alloc: Global,
    book: &mut Book,
    records: Vec<S>,
    links: Vec<ChannelLink<R>>,
) -> Result<Vec<SessionTask<S, R>>, RunFault>
    requires few { length records.items ≤ MAX_CLIENTS }
    requires links { length links.items ≡ length records.items }
    requires ready { AreClientsReady 0 book.old.opening (map (λ r. S.StableRecord.finds r) records.items) }
    ensures tasks { IfOk result (λ tasks. All (λ task. IsClientBerth book.old.table task.client book.old.opening.ballots task.berth (S.StableRecord.finds task.stable)) tasks.items) }
    // There is one for each client, and each has the link of its place.
    ensures all_clients { IfOk result (λ tasks. map (λ task. task.client) tasks.items ≡ range_with_len 1 (length records.items)) }
    ensures links { IfOk result (λ tasks. map (λ task. task.link) tasks.items ≡ links.items) }
    ensures table { IfOk result (λ _. book.new.table ≡ book.old.table) }
    ensures opening { IfOk result (λ _. book.new.opening ≡ book.old.opening) }
    ensures err { IfErr result (λ f. f ≡ RunFault.Memory) }
{
    let count = records.len();
    let (mut records, mut links) = (records, links);
    let mut tasks = Vec::new(alloc);
    for place in 0..count {
        let Some(client) = ClientId::of(place as u32 + 1) else {
            unreachable!()
        };
        let stable = records.remove(0);
        let link = links.remove(0);
        let task = session_task(book, client, stable, link)?;
        let Ok(()) = tasks.push(task) else {
            return Err(RunFault::Memory);
        };
    }
    Ok(tasks)
}

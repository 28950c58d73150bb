// What a run is handed: records and wishes.

ghost use Rattle.std.specs.Prelude.{◌≡◌, ◌≤◌, ◌++◌, length, map, replicate, IfOk};
ghost use Rattle.lock_model.specs.Ballots.{HasPlace};
ghost use Rattle.world_settings.specs.Settings.{AreAmong};
ghost use Rattle.run_service.specs.Empty.{empty_node, empty_client};

use crate::boxed::record_on;
use event_lines::{MAX_WISHES, Wish, read_wish};
use lock_model::Problem;
use stable_record::{StableRecord, client_bytes};
use std::alloc::Global;
use test_outcomes::Failure;
use test_support::{Device, NOTHING_KEPT};
use vote_weights::BallotList;

/// A record for each node that has kept nothing, on its device.
pub(crate) fn node_records(
    alloc: Global,
    devices: &[Device],
) -> Result<Vec<Box<dyn StableRecord + Send>>, Failure>
    ensures { IfOk result (λ v. map (λ r. finds r) v.items ≡ replicate (length devices.now) (empty_node Problem.First)) }
{
    let mut records: Vec<Box<dyn StableRecord + Send>> = Vec::new(alloc);
    for place in 0..devices.len() {
        records.push(record_on(alloc, devices[place], &NOTHING_KEPT)?)?;
    }
    Ok(records)
}

/// A record for each client that has made no attempt.
pub(crate) fn client_records(
    alloc: Global,
    device: Device,
    clients: u16,
) -> Result<Vec<Box<dyn StableRecord + Send>>, Failure>
    ensures { IfOk result (λ v. map (λ r. finds r) v.items ≡ replicate clients empty_client) }
{
    let mut records: Vec<Box<dyn StableRecord + Send>> = Vec::new(alloc);
    for _ in 0..clients {
        records.push(record_on(alloc, device, &client_bytes(0))?)?;
    }
    Ok(records)
}

/// The records of all, nodes first.
pub(crate) fn records(
    alloc: Global,
    of_nodes: &[Device],
    of_clients: Device,
    clients: u16,
) -> Result<Vec<Box<dyn StableRecord + Send>>, Failure>
    ensures { IfOk result (λ v. map (λ r. finds r) v.items ≡ replicate (length of_nodes.now) (empty_node Problem.First) ++ replicate clients empty_client) }
{
    let mut records = node_records(alloc, of_nodes)?;
    let mut others = client_records(alloc, of_clients, clients)?;
    records.append(&mut others)?;
    Ok(records)
}

/// The wish of a text, of one of so many clients and by one of the ballots.
fn wish(clients: u16, ballots: &BallotList, text: &[u8]) -> Result<Wish, Failure>
    ensures theirs { IfOk result (λ w. w.client ≤ clients) }
    ensures placed { IfOk result (λ w. HasPlace ballots.now w.place) }
{
    let Ok(wish) = read_wish(text) else {
        return Err(Failure::Wrong(0));
    };
    if wish.client.get() > u32::from(clients) || ballots.ballot(wish.place).is_none() {
        return Err(Failure::Wrong(0));
    }
    Ok(wish)
}

/// The wishes of these texts, of so many clients and by these ballots.
pub(crate) fn wishes(
    alloc: Global,
    clients: u16,
    ballots: &BallotList,
    texts: &[&[u8]],
) -> Result<Vec<Wish>, Failure>
    ensures { IfOk result (λ v. AreAmong clients ballots.now v.items) }
{
    let mut wishes = Vec::new(alloc);
    for text in texts {
        wishes.push(wish(clients, ballots, text)?)?;
    }
    if wishes.len() > MAX_WISHES {
        return Err(Failure::Wrong(0));
    }
    Ok(wishes)
}

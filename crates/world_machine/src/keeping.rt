// What each world keeps.

ghost use Rattle.std.specs.Prelude.{◌≤◌, length, All, List};
ghost use Rattle.lock_messages.specs.declared.ids.TheConstants.{MAX_CLIENTS};
ghost use Rattle.stable_record.specs.Records.{IsNodeRecord};
ghost use Rattle.lock_model.specs.Ballots.{Ballot as BallotValue};
ghost use Rattle.world_machine.specs.Keeping.{record_in};
ghost use Rattle.world_machine.specs.Machines.{AreClients};

use world_actors::{WorldClient, WorldNode};

/// Goes over the nodes: each tells that its record can be read again.
pub(crate) fn see_records(nodes: &[WorldNode])
    ensures { All (λ v. IsNodeRecord (record_in v.part.kept)) nodes.now }
{
    for node in nodes {
        let _kept = node.kept();
    }
}

/// Asks the last client for its number: it is how many there are.
pub(crate) fn see_last(clients: &[WorldClient])
    ensures { (b : List BallotValue) → AreClients b clients.now → length clients.now ≤ MAX_CLIENTS }
{
    let count = clients.len();
    if count > 0 {
        let _number = clients[count - 1].number().get();
    }
}

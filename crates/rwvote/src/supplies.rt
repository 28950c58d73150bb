// The lists that the program fills with records.

ghost use Rattle.std.specs.Prelude.{◌≡◌, [], ◌∷◌, ◌++◌, OnOk};

use run_service::Records;
use stable_record::StableRecord;
use std::alloc::{AllocError, Global};

/// No records yet.
pub(crate) fn no_records(alloc: Global) -> Records
    ensures first { result.first.items ≡ [] }
    ensures second { result.second.items ≡ [] }
    ensures clients { result.clients.items ≡ [] }
{
    Records {
        first: Vec::new(alloc),
        second: Vec::new(alloc),
        clients: Vec::new(alloc),
    }
}

/// Adds a node's record of each problem.
pub(crate) fn add_nodes(
    records: &mut Records,
    first: Box<dyn StableRecord + Send>,
    second: Box<dyn StableRecord + Send>,
) -> Result<(), AllocError>
    ensures first { OnOk result (records.new.first.items ≡ records.old.first.items ++ first ∷ []) }
    ensures second { OnOk result (records.new.second.items ≡ records.old.second.items ++ second ∷ []) }
    ensures clients { OnOk result (records.new.clients.items ≡ records.old.clients.items) }
{
    if records.first.push(first).is_err() || records.second.push(second).is_err() {
        return Err(AllocError);
    }
    Ok(())
}

/// Adds a client's record.
pub(crate) fn add_client(
    records: &mut Records,
    client: Box<dyn StableRecord + Send>,
) -> Result<(), AllocError>
    ensures first { OnOk result (records.new.first.items ≡ records.old.first.items) }
    ensures second { OnOk result (records.new.second.items ≡ records.old.second.items) }
    ensures clients { OnOk result (records.new.clients.items ≡ records.old.clients.items ++ client ∷ []) }
{
    if records.clients.push(client).is_err() {
        return Err(AllocError);
    }
    Ok(())
}

// Identifiers of numbers that stand in a test, so that there is nothing to go wrong.

ghost use Rattle.std.specs.Prelude.{◌≡◌};
ghost use Rattle.lock_messages.specs.Ids.{IsNode, IsClient};

use lock_messages::{ClientId, NodeId};

/// The node of a number from 1 to `MAX_NODES`, as the caller owes.
pub fn node_id(number: u8) -> NodeId
    requires { IsNode number }
    ensures { result ≡ number }
{
    let Some(id) = NodeId::of(number) else {
        unreachable!()
    };
    id
}

/// The client of a number from 1 to `MAX_CLIENTS`, as the caller owes.
pub fn client_id(number: u32) -> ClientId
    requires { IsClient number }
    ensures { result ≡ number }
{
    let Some(id) = ClientId::of(number) else {
        unreachable!()
    };
    id
}

// How a script begins: every actor rises.

ghost use Rattle.std.specs.Prelude.{◌≡◌, ◌+◌, ◌<◌, ◌≤◌, replicate, OnOk};
ghost use Rattle.lock_model.specs.Ballots.{node_count};
ghost use Rattle.lock_messages.specs.declared.ids.TheConstants.{MAX_NODES, MAX_CLIENTS};
ghost use Rattle.lock_messages.specs.declared.ids.Actor.TheVariants as actor;
ghost use Rattle.world_model.specs.declared.events.Age.TheVariants as age;
ghost use Rattle.world_model.specs.declared.events.Event.TheVariants as event;
ghost use Rattle.world_model.specs.ExactWorlds.{after};
ghost use Rattle.world_model.specs.Openings.{opening};
ghost use Rattle.operator_cli.specs.Openings.{all_risen};
ghost use Rattle.operator_cli.specs.PartOutputs.{rising};

use crate::ServeFault;
use lock_messages::{Actor, ClientId, NodeId};
use world_machine::World;
use world_model::{Age, Event};
use world_settings::Settings;

/// Raises an actor with what it has kept.
fn raise(world: &mut World, who: Actor) -> Result<(), ServeFault>
    ensures { OnOk result (world.new ≡ after world.old (event.Rise who age.Old)) }
{
    match world.step(&Event::Rise(who, Age::Old)) {
        Ok(_) => Ok(()),
        Err(_) => Err(ServeFault::Memory),
    }
}

/// The node, or the client, behind so many.
fn node_behind(count: u8) -> NodeId
    requires { count < MAX_NODES }
    ensures { result ≡ count + 1 }
{
    NodeId::of(count + 1).unwrap()
}

fn client_behind(count: u16) -> ClientId
    requires { count < MAX_CLIENTS }
    ensures { result ≡ count + 1 }
{
    ClientId::of(u32::from(count) + 1).unwrap()
}

/// Raises every node, the first one first.
fn raise_nodes(world: &mut World, settings: &Settings) -> Result<(), ServeFault>
    requires { world.old ≡ rising settings.now 0 0 }
    ensures { OnOk result (world.new ≡ rising settings.now (node_count settings.now.ballots) 0) }
{
    for count in 0..settings.ballots.nodes() {
        raise(world, Actor::Node(node_behind(count)))?;
    }
    Ok(())
}

/// Raises every client, the first one first.
fn raise_clients(world: &mut World, settings: &Settings) -> Result<(), ServeFault>
    requires in_range { settings.now.clients ≤ MAX_CLIENTS }
    requires nodes { world.old ≡ rising settings.now (node_count settings.now.ballots) 0 }
    ensures { OnOk result (world.new ≡ rising settings.now (node_count settings.now.ballots) settings.now.clients) }
{
    for count in 0..settings.clients {
        raise(world, Actor::Client(client_behind(count)))?;
    }
    Ok(())
}

/// Raises every node and then every client of a world in which nothing is kept. The only fault is want
/// of memory, at a node.
pub(crate) fn raise_all(world: &mut World, settings: &Settings) -> Result<(), ServeFault>
    requires in_range { settings.now.clients ≤ MAX_CLIENTS }
    requires opening { world.old ≡ opening settings.now.ballots (replicate (node_count settings.now.ballots) settings.now.problem) settings.now.clients }
    ensures { OnOk result (world.new ≡ all_risen settings.now) }
{
    raise_nodes(world, settings)?;
    raise_clients(world, settings)
}

// The world that settings open, and the policies that its nodes decide by.

ghost use Rattle.std.specs.Prelude.{◌≡◌, ◌≤◌, [], ◌∷◌, ◌++◌, Some, length, take, IfOk, OnOk};
ghost use Rattle.lock_messages.specs.declared.ids.TheConstants.{MAX_CLIENTS, MAX_NODES};
ghost use Rattle.lock_model.specs.declared.problems.Problem.TheVariants.{First, Second};
ghost use Rattle.world_settings.specs.Openings.{all_down};

use crate::Settings;
use admission_policy::{Admission, Pair};
use std::alloc::{AllocError, Global};
use world_machine::World;

/// Policies for as many nodes as there may be: sixteen pairs, each of a policy of problem 1 and one of
/// problem 2.
#[derive(Drop)]
pub struct Policies {
    pub pairs: Vec<Pair>,
}

/// No policies yet.
pub fn no_policies(alloc: Global) -> Policies
    ensures { result.pairs.items ≡ [] }
{
    Policies {
        pairs: Vec::new(alloc),
    }
}

/// Adds the pair of a policy of problem 1 and one of problem 2. The only error is want of memory, and drops both.
pub fn add_pair(
    policies: &mut Policies,
    first: Box<dyn Admission + Send>,
    second: Box<dyn Admission + Send>,
) -> Result<(), AllocError>
    requires first { problem_of first ≡ First }
    requires second { problem_of second ≡ Second }
    ensures { OnOk result (policies.new.pairs.items ≡ policies.old.pairs.items ++ record { first = Some first; second = Some second } ∷ []) }
{
    if policies.pairs.push(Pair::of(first, second)).is_err() {
        return Err(AllocError);
    }
    Ok(())
}

/// The pairs of so many nodes, the first ones first; the others are dropped. The caller owes sixteen pairs,
/// and no more nodes than there may be.
pub fn chosen(policies: Policies, nodes: u8) -> Vec<Pair>
    requires pairs { length policies.pairs.items ≡ MAX_NODES }
    requires few { nodes ≤ MAX_NODES }
    ensures first_ones { result.items ≡ take nodes policies.pairs.items }
    ensures count { length result.items ≡ nodes }
{
    let Policies { pairs } = policies;
    let mut pairs = pairs;
    pairs.truncate(nodes as usize);
    pairs
}

/// The world of the settings in which all actors are down and nothing is kept. The settings' problem is the
/// first one of every node, and the nodes get the first of the pairs, in order.
///
/// The only error is want of memory. The caller owes settings in range and sixteen pairs of policies.
pub fn world_down(
    alloc: Global,
    settings: &Settings,
    policies: Policies,
) -> Result<World, AllocError>
    requires some_client { 1 ≤ settings.now.clients }
    requires few_clients { settings.now.clients ≤ MAX_CLIENTS }
    requires policies { length policies.pairs.items ≡ MAX_NODES }
    ensures { IfOk result (λ w. w ≡ all_down settings.now) }
{
    let pairs = chosen(policies, settings.ballots.nodes());
    match World::start(
        alloc,
        settings.ballots,
        settings.clients,
        settings.problem,
        pairs,
    ) {
        Ok(world) => Ok(world),
        Err(_) => Err(AllocError),
    }
}

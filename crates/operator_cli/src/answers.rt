// What one line of a script does, and what it prints.

ghost use Rattle.std.specs.Prelude.{◌≡◌, ◌∷◌, [], OnOk, string_bytes};
ghost use Rattle.journal_audit.specs.Hearing.{Happened, Asked, with_words};
ghost use Rattle.world_model.specs.ExactWorlds.{step};
ghost use Rattle.operator_cli.specs.Hearing.{came_of, answered, word_of};
ghost use Rattle.operator_cli.specs.Outputs.{found, told, told_step, told_query};
ghost use Rattle.operator_cli.specs.PartOutputs.{AddsAnswer, AddsRefusal, Finds};

use crate::ServeFault;
use crate::texts::{push_answer, push_effect, push_refused};
use event_lines::{Line, Query};
use journal_audit::Watcher;
use lock_messages::Ticket;
use std::alloc::Global;
use world_machine::World;
use world_model::laws::said_numbers_fit;
use world_model::{Event, StepFault};

/// Adds that an event or a query is refused, and answers so.
fn refuse(text: &mut String, fault: StepFault) -> Result<bool, ServeFault>
    ensures { AddsRefusal fault (string_bytes text.old) (string_bytes text.new) result }
{
    if push_refused(text, fault.number()).is_err() {
        return Err(ServeFault::Memory);
    }
    Ok(true)
}

/// Takes an event.
fn take_event<V: Watcher>(
    world: &mut World,
    event: &Event,
    text: &mut String,
    watcher: &mut V,
) -> Result<bool, ServeFault>
    ensures told { AddsAnswer (told_step world.old (step world.old event.now)) (string_bytes text.old) (string_bytes text.new) result world.new }
    ensures heard { OnOk result (V.heard watcher.new ≡ with_words (Happened event.now (came_of (step world.old event.now)) ∷ []) (V.heard watcher.old)) }
{
    said_numbers_fit();
    match world.step(event) {
        Err(StepFault::Memory) => Err(ServeFault::Memory),
        Err(fault) => {
            watcher.see_event(world, event, &Err(fault));
            refuse(text, fault)
        }
        Ok(effect) => {
            watcher.see_event(world, event, &Ok(effect));
            if push_effect(text, world, &effect).is_err() {
                return Err(ServeFault::Memory);
            }
            Ok(false)
        }
    }
}

/// The tickets that a query asks for.
fn find(world: &World, query: &Query) -> Result<Vec<Ticket>, StepFault>
    ensures { Finds (found query.now world.now) result }
{
    match *query {
        Query::Inside(name) => world.inside(&name),
        Query::Waiting(node, name) => world.waiting(node, &name),
        Query::Holding(node, name) => world.holding(node, &name),
    }
}

/// Answers a query.
fn ask<V: Watcher>(
    alloc: Global,
    world: &World,
    query: &Query,
    text: &mut String,
    watcher: &mut V,
) -> Result<bool, ServeFault>
    ensures told { AddsAnswer (told_query world.now query.now (found query.now world.now)) (string_bytes text.old) (string_bytes text.new) result world.now }
    ensures heard { OnOk result (V.heard watcher.new ≡ with_words (Asked query.now (answered (found query.now world.now)) ∷ []) (V.heard watcher.old)) }
{
    match find(world, query) {
        Err(StepFault::UnknownActor) => {
            watcher.see_query(query, Err(StepFault::UnknownActor));
            refuse(text, StepFault::UnknownActor)
        }
        Err(_) => Err(ServeFault::Memory),
        Ok(tickets) => {
            watcher.see_query(query, Ok(()));
            if push_answer(alloc, text, query, tickets.as_slice()).is_err() {
                return Err(ServeFault::Memory);
            }
            Ok(false)
        }
    }
}

/// Does what a line says, adds what it prints, and answers whether it was refused. The only fault is
/// want of memory.
pub fn answer_line<V: Watcher>(
    alloc: Global,
    world: &mut World,
    line: &Line,
    text: &mut String,
    watcher: &mut V,
) -> Result<bool, ServeFault>
    ensures told { AddsAnswer (told world.old line.now) (string_bytes text.old) (string_bytes text.new) result world.new }
    ensures heard { OnOk result (V.heard watcher.new ≡ with_words (word_of world.old line.now ∷ []) (V.heard watcher.old)) }
{
    match line {
        Line::Event(event) => take_event(world, event, text, watcher),
        Line::Query(query) => ask(alloc, world, query, text, watcher),
    }
}

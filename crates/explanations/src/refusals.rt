// Why an event or a query is refused, in words.

use crate::stages::Stages;
use crate::wrong_words::Names;
use fault_numbers::meaning_of;
use lock_messages::Actor;
use std::alloc::AllocError;
use vote_weights::BallotList;
use world_machine::World;
use world_model::{Event, StepFault};

/// What is to be seen of a world as an event is refused in it.
#[derive(Clone, Copy)]
pub struct Scene<'a> {
    pub world: &'a World,
    pub stages: &'a Stages,
    pub ballots: &'a BallotList,
}

/// Adds what the event's actor does, which is why it can't do that.
fn push_phase(text: &mut String, scene: Scene<'_>, event: &Event) -> Result<(), AllocError> {
    match event.actor() {
        Actor::Node(id) => match scene.stages.node(id) {
            Some(phase) => write!(text, "{id} {phase}"),
            None => text.push_str(meaning_of(StepFault::WrongPhase.number())),
        },
        Actor::Client(id) => match scene.stages.client(id) {
            Some(stage) => write!(text, "{id} {stage}"),
            None => text.push_str(meaning_of(StepFault::WrongPhase.number())),
        },
    }
}

/// Adds that the actor of the event writes nothing, and so what it lacks.
fn push_nothing_tried(text: &mut String, event: &Event, meaning: &str) -> Result<(), AllocError> {
    match *event {
        Event::Rise(..) => write!(text, "nothing to restart with: {meaning}"),
        _ => write!(text, "nothing to keep: {meaning}"),
    }
}

/// Adds how many votes the client of the event has, of how many.
fn push_votes(text: &mut String, scene: Scene<'_>, event: &Event) -> Result<(), AllocError> {
    let Event::Enter(id) = *event else {
        return Ok(());
    };
    let Some(stage) = scene.stages.client(id) else {
        return Ok(());
    };
    let Some((had, needed)) = stage.votes(scene.ballots) else {
        return Ok(());
    };
    write!(text, ": has {had}, needs {needed}")
}

/// Adds who the message is for that the event names.
fn push_message(text: &mut String, scene: Scene<'_>, event: &Event) -> Result<(), AllocError> {
    let (Event::Take(_, number) | Event::Hear(_, number)) = *event else {
        return Ok(());
    };
    match scene.world.sent(number) {
        Some(message) => write!(text, ": message {number} is {message}"),
        None => Ok(()),
    }
}

/// Adds how many messages were sent.
fn push_sent(text: &mut String, sent: u32) -> Result<(), AllocError> {
    match sent {
        0 => text.push_str(": none was sent yet"),
        last => write!(text, ": the last one has the number {last}"),
    }
}

/// Adds the last node and the last client.
fn push_last(text: &mut String, stages: &Stages) -> Result<(), AllocError> {
    let nodes = Names {
        letter: 'n',
        first: 1,
        last: stages.node_count(),
    };
    let clients = Names {
        letter: 'c',
        first: 1,
        last: stages.client_count(),
    };
    write!(text, ": the settings have {nodes} and {clients}")
}

/// Adds why a query is refused: it names no node that is there.
pub fn push_no_node(text: &mut String, stages: &Stages) -> Result<(), AllocError> {
    text.push_str(meaning_of(StepFault::UnknownActor.number()))?;
    push_last(text, stages)
}

/// Adds why the event is refused: what the fault's number means, and then what the event meets in the world.
pub fn push_refusal(
    text: &mut String,
    scene: Scene<'_>,
    event: &Event,
    fault: StepFault,
) -> Result<(), AllocError> {
    let meaning = meaning_of(fault.number());
    if fault == StepFault::NothingTried {
        return push_nothing_tried(text, event, meaning);
    }
    if fault == StepFault::NotStored {
        return push_phase(text, scene, event);
    }
    text.push_str(meaning)?;
    match fault {
        StepFault::UnknownActor => push_last(text, scene.stages),
        StepFault::WrongPhase | StepFault::NothingToSay => {
            text.push_str(": ")?;
            push_phase(text, scene, event)
        }
        StepFault::NoSuchMessage => push_sent(text, scene.stages.sent()),
        StepFault::NotAddressed => push_message(text, scene, event),
        StepFault::NoQuorum => push_votes(text, scene, event),
        StepFault::NoSuchPlace => {
            let count = scene.ballots.count();
            write!(text, ": the last one is at place {count}")
        }
        StepFault::Down
        | StepFault::Up
        | StepFault::NotStored
        | StepFault::AttemptsSpent
        | StepFault::NothingTried
        | StepFault::SentListFull
        | StepFault::Memory => Ok(()),
    }
}

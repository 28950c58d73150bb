//! The world of a lock service, as a machine: its nodes, its clients and all messages ever sent.
//!
//! One event is one atomic action of one actor, and `World::step` takes one event. `World::start` opens
//! a world in which nothing is kept, `World::resume` one from the records that its actors have kept. The
//! crate promises that `step` and `run` are the exact ones of `world_model`: the world after, the effect,
//! or the lowest refusal that applies, with nothing changed; that what they did is a step, or a run, of
//! which the exclusion theorem speaks; that every `World` is sound, so that a writer inside a resource is
//! there alone; that what is asked of it (`inside`, `ticket_inside`, `waiting`, `holding`, `kept_bytes`,
//! `sent`) is answered as the definitions have it; that nobody is locked out of it: `way_in` answers the
//! events by which a client gets in, or why there are none, and leaves the world as it is; and that a
//! `copy` is the same world.
//!
//! `Actors` are the actors of a world, with a list of messages that can be forgotten. They take the same events, but nothing
//! is promised of how they stand to each other.
//!
//! It stands on `world_model`, `world_actors`, `world_opening`,
//! `stable_record`, `admission_policy`, `lock_messages`, `lock_model` and `vote_weights`.
#![tactic(auto)]

mod actors;
mod advising;
mod copying;
mod doing;
mod keeping;
mod listing;
mod opening;
mod stepping;
mod turns;
mod ways;
mod world;

pub use actors::Actors;
pub use world::World;
pub use world_model::{Age, Effect, Event, MAX_MESSAGES, StepFault, Want, laws};
pub use world_opening::OpeningFault;

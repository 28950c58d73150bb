//! What the whole service means: its nodes, its clients and all messages ever sent, and what may
//! happen to them.
//!
//! An `Event` is one atomic action of one actor, an `Effect` what it did, a `StepFault` why it was
//! refused. The definitions stand in `specs/`, at two levels. `Worlds` has the world as sets and
//! maps and what may happen next as a relation; it is what a reader has to believe, and `Exclusion`
//! says of it that a writer is alone. A writer that is inside may soften: from then on it is a
//! reader, without leaving (our own). A node may take another problem while it runs, and settles all
//! that wait under it (our own). `ExactWorlds` has it exactly, with entries in order and
//! messages numbered from 1, and `step` as a function to the world after and the effect, or to the
//! lowest refusal that applies. `Forgetting` leads from the exact world to the other, `Parts` says
//! which part of the world is an actor's own. `Ways` says what a way in is, and which ways there are;
//! `Advice` which move is the next on one, told by the world alone; `ExactWays` the same of the exact
//! world, with the room that it takes.
//!
//! The crate has the plain data that these speak of and nothing that computes with it. It promises
//! the laws of the module `laws`: the exclusion theorem, over all runs; that the exact steps are just
//! those that may happen, and that each leaves a sound world, in which a writer is alone; that nobody is
//! locked out: whatever has happened, there is a way in for each client with an attempt left, though
//! nothing says that it is gone; and locality, that an actor's part of the world is told by its own
//! events. It stands on `lock_messages`, `lock_model`, `vote_weights` and `thiserror`.
#![tactic(auto)]

mod events;
mod exact;
pub mod laws;
mod ways;

/// The most messages that a world has. They are numbered from 1.
pub const MAX_MESSAGES: u32 = 1_048_576;

pub use events::{Age, Effect, Event, StepFault};
pub use exact::{
    ExactClient, ExactClientPhase, ExactNode, ExactNodePhase, ExactStation, ExactWorld,
};
pub use ways::{Move, Want};

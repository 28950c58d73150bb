//! A client as a thread runs it: from its wishes to what it logs and sends.
//!
//! `run_client` rises with what the client's record holds, and fulfils its wishes one after another over
//! any `Recorder`, `Link` and `Gate`. The crate promises that it logs only what the client's own log
//! allows, each while the record finds what the client has kept by then; that the gate is called inside
//! with a live guard whose ticket the log has inside, a writer's before it softens and a reader's after
//! that; that the client's Enters are those of its first wishes, in order, and its Softens those of the ones
//! among them that soften, but for the last where a fault comes first; that what it answers is the
//! number of its Enters, `Ok` only with every wish entered; that over a link which remembers what is sent,
//! this is what the log tells, but perhaps for the last message where it ends by want of memory; and that,
//! however it ends, a restart finds in its record nothing but what it has kept and what it tries to keep. It
//! promises nothing of what a link brings, and not that it ends.
//!
//! It stands on `client_core` for what a client decides, `entry_guard` for being inside, `actor_steps`
//! for the steps that nodes and clients share, `event_recorders`, `lossy_link`, `stable_record`,
//! `event_lines` for wishes, `world_model`, `vote_weights`, `lock_messages` and `lock_model`; the
//! definitions of `world_actors` tie a core to its part of the world.
#![tactic(auto)]

mod asking;
mod attempting;
mod clients;
mod ending;
mod entering;
pub mod laws;
mod leaving;
mod posts;
mod progress;
mod releasing;
mod rising;
mod softening;
mod staying;
mod talking;
mod wishing;

pub use clients::{run_client, run_client_over};
pub use entering::enter;
pub use leaving::leave;
pub use progress::{MAX_NUDGES, Patience, Progress};
pub use releasing::release_at;
pub use rising::rise;
pub use softening::soften;

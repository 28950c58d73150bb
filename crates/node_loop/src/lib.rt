//! The loop that a node's thread runs.
//!
//! `run_node` takes a node from its first rising to its end: post by post it logs that it takes a message,
//! or another problem, decides, keeps what changes, logs that this is kept, and only then says its replies
//! and sends them. It is generic in the recorder by which it logs, in the link over which it hears and
//! sends, and in the gate that is called before a keep, so it holds no lock of its own between two events.
//! `rise` and `serve` are its two parts, for a loop of another kind.
//!
//! The crate promises that a node logs only events that its own log allows, each while its record finds
//! what the node has kept by then; that its core is always what its log tells of it; that over a link
//! which remembers what is sent, this is just what the log tells, each reply as its frame and numbered as
//! it was said; by which faults it ends; and that over such a link it then has sent as much, but perhaps
//! for an end of its last replies where memory was refused, or for the nudge of its last fall where it did
//! not rise either, and has told every client that it is gone, unless memory was refused. However it ends, a
//! restart finds in its record nothing but what it has kept and what it tries to keep. It promises nothing of
//! what comes over the link, nor that the loop ends.
//!
//! It stands on `actor_steps` and `event_recorders` for what the threads of nodes and clients do alike, on
//! `voter_core` for decisions, and on `lossy_link`, `stable_record`, `admission_policy`, `lock_messages`,
//! `lock_model` and `world_model`; the definitions of `world_actors` tie a core to its part of the world.
#![tactic(auto)]

mod attending;
mod replies;
mod running;

pub use running::{rise, run_node, run_node_over, serve, tell_gone};

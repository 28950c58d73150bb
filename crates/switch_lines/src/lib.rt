//! The line by which a node is asked to take a problem.
//!
//! A line has three parts, with a space between any two: `n1 switch 2 9f86d081884c7d65`.
//!
//! - the name of the node,
//! - the order: `switch 1` or `switch 2`,
//! - a tag: the first 8 bytes of HMAC-SHA-256 of the order, a space and the name, under the service's secret.
//!
//! The tagged bytes begin with the order, and those of a frame's line with the name of an actor. So the tag of a frame is
//! not the tag of a switch, and the tag of a switch is not the tag of a frame.
//!
//! The crate promises that reading and writing are inverse. A line is accepted exactly if it is the one line of a problem
//! for this node under this secret. It is a premise, not a proof, that nobody finds a tag of 64 bits without the secret,
//! and that digests of different bytes differ.
//!
//! A switch is no message: it is lawful at any moment, so a line may come twice or late. The node then switches again.
//!
//! It uses `frame_lines` for the secret, `hex` of the toolchain's library, `lock_messages` and `lock_model`.
#![tactic(auto)]

pub mod laws;
mod lines;

pub use lines::{read_switch, write_switch};

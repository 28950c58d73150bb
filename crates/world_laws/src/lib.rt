//! Laws of the whole service that nothing below has to know: which worlds a run reaches, that the theorems speak
//! of each of them, and how many messages a way in may say there.
//!
//! Each function computes nothing: its contract is a theorem. `specs/Reaching` and `specs/Loads` have the
//! statements. The crate stands on `lock_messages`, `lock_model` and `world_model`.
#![tactic(auto)]

pub mod laws;

/// The most messages that a way in needs room for, in a world of 16 nodes and 1,024 clients. A node may have
/// 1,025 replies to say, 1,024 tickets that wait for it and 1,024 that are in the way, each of which takes a release
/// and its reply; and it takes a request and its reply.
pub const MAX_LOAD: u32 = 65_584;

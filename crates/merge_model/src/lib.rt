//! What it means to merge the logs of actors that share nothing, and when that is enough.
//!
//! A process can vouch only for its own actor. So its log is an *own run*: events that the actor's own part of
//! the world allows, where a message that is read is known by its content. A *merge* is one history that has
//! of each actor exactly its own run, and in which every message that is read was said before. `Lives` says
//! what a process that restarts adds to its actor's log.
//!
//! The crate has definitions and computes nothing. It promises the laws of the module `laws`: a merge is a run
//! of the world of `world_model`, so a writer is alone at every moment of it; merges and histories of the exact
//! world have the same content, while the messages fit; and a merge is found by taking any event that may come
//! next, if there is one at all. It stands on `lock_messages`, `lock_model`, `stable_record` and `world_model`.
#![tactic(auto)]

pub mod laws;

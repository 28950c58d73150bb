//! That the journal of a history is found sound.
//!
//! The crate computes nothing: its functions are laws about what `journal_text` writes and what
//! `journal_audit` finds. It stands on these two, `event_lines`, `line_streams`, `lock_messages`,
//! `lock_model` and `world_model`.
#![tactic(auto)]

pub mod laws;

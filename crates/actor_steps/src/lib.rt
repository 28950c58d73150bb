//! What the threads of nodes and of clients do alike: they log an event, rise with what their record
//! holds, keep a record, and rise again after a failed keep.
//!
//! Each step logs just the events that it names, each while the actor's record finds what the actor has
//! kept by then, so it meets the condition of `Recorder::log`. It answers a `RunFault` only for the
//! cause that it names, and then it has logged no more than a beginning of its events. The crate stands
//! on `event_recorders`, `history_book`, `world_model`, `stable_record`, `lock_messages` and `lock_model`.
#![tactic(auto)]

mod keeping;
pub mod laws;
mod logging;
mod reopening;
mod rising;

pub use keeping::{Keeping, keep_next};
pub use logging::{log_plain, log_reading, log_switch, run_fault_of};
pub use reopening::MAX_REOPENS;
pub use rising::{rise_again, rise_first};

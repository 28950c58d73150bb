//! The loop of a node that keeps its record once for several messages.
//!
//! While a node keeps its record, more messages come. `run_node_in_batches` takes all that have come, at most `MAX_BATCH`,
//! and lets the loop of `node_loop` work them off: over a copy of the record in memory, and over a link that holds back what
//! is sent. Then it lets out the lines of the journal, keeps the record, and sends what was held back, in this order.
//!
//! The crate promises that nothing is sent that is not kept. If a run ends with a fault, one of two things is true:
//!
//! - An own run from the same opening tells all that was sent. A restart finds what the node has kept in that run or at the
//!   end of its log.
//! - A restart finds what the node has kept at the end of its log. What was sent is a beginning of what its log tells.
//!
//! The log is that of `node_loop`, event by event: a batch is no event of its own. That lines go out before the record is
//! kept is in the code alone, and tested.
//!
//! The crate uses `node_loop` for the loop, `own_recorders` for the log, and `actor_steps`, `event_recorders`, `lossy_link`,
//! `stable_record`, `voter_core`, `admission_policy`, `world_model`, `lock_model` and `lock_messages`.
#![tactic(auto)]

mod batches;
mod held_links;
mod outlets;
mod running;

pub use batches::MAX_BATCH;
pub use running::run_node_in_batches;

//! One node's decisions.
//!
//! A `NodeCore` has a node's number, its station (a problem and the entries in the order in which
//! tickets arrived), a pair of policies, and what it is about: nothing, a decision that has to be kept, or
//! replies that may be said. It rises from its record, takes a message (a request, a release or a
//! softening) or another problem, gives the bytes of its record to be kept and, once they are, the replies.
//!
//! The crate promises that `take` and `switch` are the exact decision and the exact switch of
//! `lock_model`, so that each is one that a node may take, and that every station is lawful and caused:
//! no writer that holds is beside another holder, and who waits has a cause (Courtois, Heymans and
//! Parnas 1971, for the node's own vote). Its only refusal is want of memory, and then nothing has
//! changed. Beside its entries a core keeps their index by resource, which is always theirs: a decision
//! costs what the resource of its message costs, and not what all entries cost; a switch costs what all
//! do. The crate stands on `lock_messages`, `lock_model`, `stable_record` and `admission_policy`, by
//! their public contracts alone, and on `thiserror`.
#![tactic(auto)]

mod consulting;
mod deciding;
mod faults;
mod phases;
mod rising;
mod settling;
mod voters;

pub use faults::VoterFault;
pub use phases::Phase;
pub use voters::NodeCore;

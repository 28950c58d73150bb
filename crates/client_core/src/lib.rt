//! One client's attempts to use a resource, as a core that decides and neither sends nor keeps.
//!
//! A client begins an attempt by one of the ballots of a list, keeps its number in its record, asks the
//! nodes of that ballot for their votes, enters once the votes are enough for its mode, and leaves; then
//! it tells each node of the list that the attempt is over. While it is inside as a writer it may soften:
//! it is a reader from then on, without leaving, and tells that to each node of the list. `ClientCore` says
//! at each point what there is to send and to whom, and what to make of what is heard. The caller carries
//! the messages, and keeps the number between `begin` and `kept`.
//!
//! The crate promises that the votes of an attempt are those of the nodes whose Grant of the very
//! ticket was heard, each counted once (Gifford 1979); that a client which is inside has enough of
//! them, for the mode in which it asked; that each attempt that is begun has the number above the latest,
//! which a restart takes from the client's record; and that a client softens only while it is inside as a
//! writer, and tells no node of it before. The last two rules are our own. No call takes memory or waits.
//!
//! Contracts see a core as a `Client` of `specs/Clients`, and what each call does is defined in
//! `specs/Calls`. The crate stands on `lock_messages`, `lock_model`, `vote_weights` and `thiserror`.
#![tactic(auto)]

mod clients;
mod faults;
mod hearing;
mod phases;

pub use clients::ClientCore;
pub use faults::ClientFault;
pub use lock_model::Heard;
pub use phases::Phase;

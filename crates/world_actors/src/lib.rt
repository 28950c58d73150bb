//! One node and one client of the world, each with what it has kept and what it tries to keep.
//!
//! A `WorldNode` is a core that decides (`voter_core`), the record that the node has kept, the one that
//! it is trying to keep, and whether it is up; a `WorldClient` is the same with a core that collects
//! votes (`client_core`) and the number of an attempt. Each has one method for each event of its own,
//! and knows neither the others nor the list of messages: a world gives it the message that it takes
//! or hears, and sends what it says. It also tells by which event an actor goes on, on a way in: how a
//! node finishes, how a client comes to rest or to ask, and whether a client's ticket stands in the way.
//!
//! The crate promises that each method is the actor's turn, as `world_model` has it: what it leaves and
//! what it refuses (601 to 606, 609 to 611, 614), with nothing changed by a refusal; want of memory (613)
//! comes after all of these, and only where a node's record is copied or a message is decided on. And it
//! promises that the events it tells are those of the next move, as `world_model` has that. It stands on
//! `lock_messages`, `lock_model`, `vote_weights`, `stable_record`, `admission_policy`, `voter_core`,
//! `client_core` and `world_model`.
#![tactic(auto)]

mod clients;
mod nodes;

pub use clients::WorldClient;
pub use nodes::WorldNode;

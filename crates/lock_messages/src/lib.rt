//! The vocabulary of the lock service: who takes part, what is asked for, and what is said.
//!
//! A lock service has voting nodes and clients. A client asks nodes for their votes with a
//! ticket: its own number, the number of its attempt, how it wants to use a resource, and the
//! resource's name. Everything that nodes and clients say to each other is a `Message`.
//!
//! The crate promises that a number or a name that is out of range can't be made: each type has
//! one maker, `of`, which answers `None` exactly there. All types are `Copy`, take no memory, and
//! print as the lines of scripts and journals show them.
//!
//! A message is carried as a frame: `encode` answers the one spelling of a message, and
//! `decode` the message exactly where the whole input is its spelling, else the first fault from
//! the front (`FrameFault`). Frames have version 1, and those of `Soften` and `Softened` version 2;
//! each version has its own kinds. `laws::one_spelling` says that no spelling begins another. Only
//! `encode` takes memory. The crate stands on `std`, `bytes` and `thiserror`.
#![tactic(auto)]

mod faults;
mod ids;
mod kinds;
pub mod laws;
mod messages;
mod names;
mod reading;
mod tickets;
mod writing;

pub use faults::FrameFault;
pub use ids::{Actor, Attempt, ClientId, MAX_ATTEMPT, MAX_CLIENTS, MAX_NODES, NodeId};
pub use messages::Message;
pub use names::{MAX_NAME_LEN, ResourceName, has_name_bytes};
pub use reading::decode;
pub use tickets::{Mode, Ticket};
pub use writing::encode;

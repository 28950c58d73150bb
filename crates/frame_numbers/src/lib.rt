//! The messages that were said in a world, by their frames.
//!
//! `FrameNumbers` has their numbers. Whoever knows a message by its frame alone, as in a journal that one actor writes, finds here the number under
//! which a world has it. `catch_up` takes in the messages that were said since. The crate promises that a number
//! that is found is that of a message with this frame and, once it has caught up, that none is missing.
//!
//! `SaidFrames` has the frames alone, each once, and no numbers. `take_in` takes in the messages of actors, which then
//! forget them. The crate promises that it has the frames of all messages that it took in, and no other.
//!
//! It stands on `world_machine` and `world_model`, on `lock_messages` for frames, and on `indexmap` and `bytes`.
#![tactic(auto)]

mod lately;
pub mod laws;
mod messages;
mod numbers;
mod said;

pub use messages::is_message;
pub use numbers::FrameNumbers;
pub use said::SaidFrames;

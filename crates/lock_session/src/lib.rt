//! Locks when a program wants them: a client's session, in which it enters, softens and leaves by calls.
//!
//! A `Session` owns a client's record, recorder and link. `enter` makes an attempt, asks for it, and answers a
//! `SessionGuard`, which is alive only while the session's own log has the client inside with the guard's
//! ticket. `leave` takes the guard, logs the Leave and says the releases; a guard that is dropped instead is
//! outside at once, and the next call that enters or settles logs it and says the releases first. Where an
//! attempt ends by too few nodes (912) or too many nudges (913) the session goes on; every other fault ends it.
//!
//! The crate promises what `client_loop` promises of each of its calls, whose parts a session is: what is
//! logged and sent, and by which fault a call ends; and that each holds of a session as it stands, whatever
//! was called before. It stands on `client_loop`, `actor_steps`, `event_recorders`, `entry_guard`,
//! `client_core`, `lossy_link`, `stable_record`, `event_lines` for wishes,
//! `world_actors`, `world_model`, `vote_weights`, `lock_messages`, `lock_model` and `thiserror`.
#![tactic(auto)]

mod crowds;
mod faults;
mod gates;
mod guards;
mod sessions;

pub use crowds::{Crowd, LOCKS_IN_TURN};
pub use event_recorders::{LentRecord, OwnRecord};
pub use faults::TryFault;
pub use gates::OpenGate;
pub use guards::SessionGuard;
pub use sessions::{NotRisen, Session};

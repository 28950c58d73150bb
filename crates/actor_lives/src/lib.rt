//! The life of a node or of a client in a process of its own, from the record that it finds to its end.
//!
//! `run_node_life` runs a node until its link brings nothing more. `run_client_life` runs a client that obeys commands. A
//! `Desk` brings the commands and takes the answers.
//!
//! The crate promises of each life:
//!
//! - Its log is an own run from the part that the record told, and its journal has the lines of the log.
//! - A node sends nothing that its record does not have. It keeps the record once for all messages that have come.
//! - A client logs and sends while a restart finds what it has kept by then.
//! - What was sent is what the log tells.
//! - A client says `inside` only while its own log has it inside, and `outside` only when it is outside.
//!
//! It promises nothing of what a link or a desk brings, and not that a life ends.
//!
//! It uses `node_batches` and `node_loop` for nodes, `lock_session` and `session_files` for clients, `own_recorders` for
//! logs and journals, `client_commands` for commands, and the crates of their types.
#![tactic(auto)]

mod client_lives;
mod desks;
mod memos;
mod node_lives;
mod owing;
mod serving;

pub use client_lives::{ClientEnd, run_client_life};
pub use desks::{Asked, Desk, Refusal};
pub use node_lives::{NodeEnd, live_as_node, open_node, run_node_life};
pub use serving::serve_client;

//! Nodes and clients as programs over the directory of a service.
//!
//! `run_node_program` runs a node until it is killed, and `run_client_program` a client that obeys the commands of its
//! input. `run_reaper` releases what clients held whose processes died. Each opens the record, the inbox and the journal of
//! its actor in the service's directory. With pipes, frames come on standard input and go to standard output.
//!
//! `switch_node` lets a node take a problem. It runs a life of a node that nobody runs. It asks a node that runs by a line
//! in its inbox, and looks at its record until the node has taken the problem.
//!
//! A process has the exclusive lock of its actor's record while it runs. So whoever can take the lock knows that no process
//! runs the actor. That holds if all processes of the service are on one machine, or if the locks of the file system work
//! between machines.
//!
//! A node keeps its record once for all messages that have come. It holds back the lines of its journal until then, and
//! writes a mark before them. A later life of the node finds by the mark whether the record was kept. If not, it takes the
//! lines out of the journal again: nothing was sent.
//!
//! `actor_lives` promises what a life logs and sends. Here is what no contract says, which tests show: files, threads,
//! time, and what is printed.
//!
//! It uses `actor_lives`, `service_folders` for directories, `service_status` to look at a node, `line_link` and
//! `switch_lines` for lines, `file_records` and `session_files` for records, `client_commands` for commands, and
//! `program_ends` for the status.
#![tactic(auto)]

mod client_programs;
mod command_lines;
mod ends;
mod journals;
mod line_desks;
mod node_journals;
mod node_programs;
mod reapers;
mod starting;
mod switching;

pub use client_programs::{ClientWork, Pipes, run_client_program};
pub use journals::Journaling;
pub use node_programs::{NodeWork, run_node_program};
pub use reapers::run_reaper;
pub use switching::{SwitchWork, switch_node};

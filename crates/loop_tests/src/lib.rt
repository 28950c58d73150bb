//! Tests of the loops that nodes and clients run, over lists and with no thread.
//!
//! What the contracts say is proved, and is not tried here again. Tried is what no contract sees: that a
//! turn and a wish come to their end where there is memory, what is sent and how many events are logged
//! then, and by which fault a loop ends. The crate has no code but tests; each file is named for what it
//! shows.
#![tactic(auto)]

#[cfg(test)]
mod client_records;
#[cfg(test)]
mod client_runs;
#[cfg(test)]
mod clients;
#[cfg(test)]
mod clients_alone;
#[cfg(test)]
mod clients_beside;
#[cfg(test)]
mod gate_calls;
#[cfg(test)]
mod held_votes;
#[cfg(test)]
mod judging;
#[cfg(test)]
mod lost_answers;
#[cfg(test)]
mod neighbours;
#[cfg(test)]
mod node_runs;
#[cfg(test)]
mod nodes;
#[cfg(test)]
mod odd_records;
#[cfg(test)]
mod openings;
#[cfg(test)]
mod posts;
#[cfg(test)]
mod records;
#[cfg(test)]
mod runs;
#[cfg(test)]
mod scripts;
#[cfg(test)]
mod softened_clients;
#[cfg(test)]
mod softened_nodes;
#[cfg(test)]
mod switched_nodes;
#[cfg(test)]
mod watched_clients;
#[cfg(test)]
mod watched_nodes;
#[cfg(test)]
mod watches;
#[cfg(test)]
mod worlds;

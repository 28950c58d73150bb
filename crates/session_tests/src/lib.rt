//! Tests of sessions: beside a node that takes its turns at once and with no thread, and in services whose nodes are
//! threads.
//!
//! What the contracts say is proved, and is not tried here again. Tried is what no contract sees: that a
//! session comes to its end where there is memory, and what is logged then, to the letter of the journal,
//! which an audit finds sound each time. The crate has no code but tests; each file is named for what it shows.
#![tactic(auto)]

#[cfg(test)]
mod boxed;
#[cfg(test)]
mod broken_links;
#[cfg(test)]
mod calls;
#[cfg(test)]
mod failing_records;
#[cfg(test)]
mod full_lists;
#[cfg(test)]
mod going_on;
#[cfg(test)]
mod guards;
#[cfg(test)]
mod inside;
#[cfg(test)]
mod kept;
#[cfg(test)]
mod lending;
#[cfg(test)]
mod meeting;
#[cfg(test)]
mod neighbours;
#[cfg(test)]
mod nudges;
#[cfg(test)]
mod plates;
#[cfg(test)]
mod programs;
#[cfg(test)]
mod refused_events;
#[cfg(test)]
mod refusing;
#[cfg(test)]
mod rows;
#[cfg(test)]
mod seeds;
#[cfg(test)]
mod storms;
#[cfg(test)]
mod worlds;

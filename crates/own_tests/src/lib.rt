//! Tests of recorders of an actor's own, by their public calls alone.
//!
//! A node's loop, one that works in batches, and a client's session run over them. The tests compare their journals, merge
//! them, and let each write fail. Each file is named for what it shows.
#![tactic(auto)]

#[cfg(test)]
mod batches;
#[cfg(test)]
mod clients;
#[cfg(test)]
mod merged;
#[cfg(test)]
mod nodes;
#[cfg(test)]
mod watched;
#[cfg(test)]
mod worlds;
#[cfg(test)]
mod writers;

//! Tests of worlds and of their actors, by their public calls alone.
//!
//! What the contracts say is proved, and is not tried here again. Tried is each cause for which records
//! are refused, on each kind of actor and two causes at once, with the policies that come back; what a
//! world is that was opened; and, in small runs, each call of a node and of a client by itself, each
//! query of a world, that a copy of a world and the world itself go on apart, and that a way in leads in.
//! The crate has no code but tests; each file is named for what it shows. A small run is a script: rows of
//! plain values (`rows`, `sights`), which one function plays (`steps`). A test that fails names the row of
//! its table or script, or says that memory was refused.
#![tactic(auto)]

#[cfg(test)]
mod clients_alone;
#[cfg(test)]
mod copies;
#[cfg(test)]
mod generator;
#[cfg(test)]
mod mild_ways;
#[cfg(test)]
mod nodes_alone;
#[cfg(test)]
mod openings;
#[cfg(test)]
mod pairs;
#[cfg(test)]
mod queries;
#[cfg(test)]
mod random_events;
#[cfg(test)]
mod records;
#[cfg(test)]
mod rows;
#[cfg(test)]
mod sights;
#[cfg(test)]
mod softening;
#[cfg(test)]
mod steps;
#[cfg(test)]
mod switching;
#[cfg(test)]
mod ways_in;
#[cfg(test)]
mod whose_policy;

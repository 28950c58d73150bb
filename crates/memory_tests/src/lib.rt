//! Tests of refused memory: a short one for each public call that asks for memory.
//!
//! Run as it is, a test shows that its call succeeds and gives the right answer. `tools/sweep` runs
//! it again with each of its requests for memory refused in turn: then the call has to say so by the
//! fault that its documentation names, and the test looks at what the refusal left before it ends
//! with that want of memory. The crate has no code but tests, and stands on the crates that it tests;
//! each file is named for what its calls are about.
#![tactic(auto)]

#[cfg(test)]
mod actors;
#[cfg(test)]
mod books;
#[cfg(test)]
mod decisions;
#[cfg(test)]
mod failures;
#[cfg(test)]
mod frames;
#[cfg(test)]
mod lines;
#[cfg(test)]
mod links;
#[cfg(test)]
mod own_lines;
#[cfg(test)]
mod plates;
#[cfg(test)]
mod policies;
#[cfg(test)]
mod records;
#[cfg(test)]
mod rooms;
#[cfg(test)]
mod scripts;
#[cfg(test)]
mod sessions;
#[cfg(test)]
mod voters;
#[cfg(test)]
mod worlds;

//! Tests of runs: a thread for each actor, over records that fail, links that lose, and gates.
//!
//! What the contracts say is proved, and is not tried here again. Tried is what no contract sees: that
//! runs come to their end, how many entries they tell then, which actors end by which fault, and that
//! actors work at the same time. The journal of each run is audited. The crate has no code but tests;
//! each file is named for what it shows.
#![tactic(auto)]

#[cfg(test)]
mod books;
#[cfg(test)]
mod boxed;
#[cfg(test)]
mod failing;
#[cfg(test)]
mod full;
#[cfg(test)]
mod gates;
#[cfg(test)]
mod given;
#[cfg(test)]
mod quiet;
#[cfg(test)]
mod rows;
#[cfg(test)]
mod seeds;
#[cfg(test)]
mod served;
#[cfg(test)]
mod softening;
#[cfg(test)]
mod storms;
#[cfg(test)]
mod supplies;
#[cfg(test)]
mod switched_actors;
#[cfg(test)]
mod switched_storms;
#[cfg(test)]
mod switching_links;
#[cfg(test)]
mod together;
#[cfg(test)]
mod whose_policy;

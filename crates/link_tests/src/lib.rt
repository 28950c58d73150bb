//! Tests of links between programs: over a directory with real files, over streams, and over a carrier whose clock the
//! test moves on. They show what comes, what is lost, what is put again and when.
//!
//! It has no code but tests, and stands on the crates that it tests. Each file is named for what it shows.
#![tactic(auto)]

#[cfg(test)]
mod desks;
#[cfg(test)]
mod folders;
#[cfg(test)]
mod habits;
#[cfg(test)]
mod limits;
#[cfg(test)]
mod links;
#[cfg(test)]
mod overload;
#[cfg(test)]
mod places;
#[cfg(test)]
mod repeats;
#[cfg(test)]
mod streams;
#[cfg(test)]
mod switches;
#[cfg(test)]
mod threads;

//! Tests of the lines by which frames and switches travel, by their public calls alone.
//!
//! They compare digests and lines with those that other programs compute. They show that lines are dropped that are
//! torn, damaged, for another actor, of another service or forged. Each file is named for what it shows.
#![tactic(auto)]

#[cfg(test)]
mod digests;
#[cfg(test)]
mod dropped_lines;
#[cfg(test)]
mod frames;
#[cfg(test)]
mod switches;

//! Tests of the whole service, by its public calls: the world, the audit of journals, and the program from
//! its bytes to its bytes through `serve`.
//!
//! What the contracts of these calls say is proved, and is not tried here again. Tried are the worked
//! values, which say that the definitions mean what they should, worked journals with their verdicts as they
//! are written, each number that the program prints, the texts of faults, and what no contract sees: readers
//! that give little, readers and writers that fail, and the greatest sizes. The crate has no code but tests,
//! and stands on the crates that it tests; each file is named for what it shows. The scripts of `examples/`
//! are run by `.ci/run`.
#![tactic(auto)]

#[cfg(test)]
mod audit_streams;
#[cfg(test)]
mod audit_switches;
#[cfg(test)]
mod auditing;
#[cfg(test)]
mod bad_lines;
#[cfg(test)]
mod bad_settings;
#[cfg(test)]
mod commands;
#[cfg(test)]
mod fault_texts;
#[cfg(test)]
mod greatest_sizes;
#[cfg(test)]
mod journal_lines;
#[cfg(test)]
mod own_lines;
#[cfg(test)]
mod playing;
#[cfg(test)]
mod restarts;
#[cfg(test)]
mod run_settings;
#[cfg(test)]
mod scripts;
#[cfg(test)]
mod sips;
#[cfg(test)]
mod softenings;
#[cfg(test)]
mod streams;
#[cfg(test)]
mod switches;
#[cfg(test)]
mod verdicts;
#[cfg(test)]
mod worlds;

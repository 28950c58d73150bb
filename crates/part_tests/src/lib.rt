//! Tests of the parts of the lock service, by their public calls alone.
//!
//! It has no code but tests, and stands on the crates that it tests: messages, ballots, records,
//! policies, voters, clients, guards and openings. Each file is named for what it shows. The rows of a
//! table are constants, or lines of text that one function reads, one row after the other; a test that
//! fails names the row, or says that memory was refused. What owns memory makes as few exits as it can,
//! since each is dear to prove: it hands itself to a function that borrows it, and ends.
#![tactic(auto)]

#[cfg(test)]
mod attempts;
#[cfg(test)]
mod ballots;
#[cfg(test)]
mod courses;
#[cfg(test)]
mod decisions;
#[cfg(test)]
mod fault_texts;
#[cfg(test)]
mod frames;
#[cfg(test)]
mod guards;
#[cfg(test)]
mod indexes;
#[cfg(test)]
mod kept_records;
#[cfg(test)]
mod long_runs;
#[cfg(test)]
mod nodes;
#[cfg(test)]
mod pairs;
#[cfg(test)]
mod policies;
#[cfg(test)]
mod record_tables;
#[cfg(test)]
mod records;
#[cfg(test)]
mod replies;
#[cfg(test)]
mod restarts;
#[cfg(test)]
mod rows;
#[cfg(test)]
mod scripts;
#[cfg(test)]
mod spellings;
#[cfg(test)]
mod switches;
#[cfg(test)]
mod tables;
#[cfg(test)]
mod words;

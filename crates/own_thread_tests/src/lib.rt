//! Tests of services in threads whose actors log for themselves, by their public calls alone.
//!
//! Each test runs real threads, and checks what holds whatever their schedule. Each file is named for what it shows.
#![tactic(auto)]

#[cfg(test)]
mod alone;
#[cfg(test)]
mod crowded;
#[cfg(test)]
mod dropped;
#[cfg(test)]
mod programs;
#[cfg(test)]
mod quiet;
#[cfg(test)]
mod readers;
#[cfg(test)]
mod storms;

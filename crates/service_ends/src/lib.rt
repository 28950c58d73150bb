//! How a program ends that can't make or open a service.
//!
//! `tell_service_fault` says the fault by its number and the words of this number, and returns how the program ends.
//! The crate promises the text and the status. `ServiceEnds` in `specs/` has both.
//!
//! It uses `service_folders` for faults, `fault_numbers` for their words, `operator_cli`, and `program_ends` for the
//! status.
#![tactic(auto)]

mod telling;

pub use telling::tell_service_fault;

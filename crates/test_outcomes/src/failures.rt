// Why a test ended before its end.

use std::alloc::{AllocError, AllocFailed};
use std::fmt;
use world_model::StepFault;

/// Why a test ended. A row is one of the test's table, counted from 0; where there is no table it is 0,
/// or a number that tells one check of the test from another.
#[derive(Clone, Copy, Debug, PartialEq, Eq)]
pub enum Failure {
    /// Memory was refused.
    Memory,
    /// The row has no answer: it can't be read, memory was refused for it, or a call was refused that
    /// should not be.
    NoAnswer(usize),
    /// In this row something is not so.
    Wrong(usize),
}

/// What a test, or a step of one, answers.
pub type Outcome = Result<(), Failure>;

impl From<AllocError> for Failure {
    fn from(_error: AllocError) -> Failure {
        Failure::Memory
    }
}

impl<T: Drop> From<AllocFailed<T>> for Failure {
    fn from(_error: AllocFailed<T>) -> Failure {
        Failure::Memory
    }
}

/// Writing into a text fails for want of memory alone.
impl From<fmt::Error> for Failure {
    fn from(_error: fmt::Error) -> Failure {
        Failure::Memory
    }
}

/// Where a test expects a step to be taken, a refusal is wrong.
impl From<StepFault> for Failure {
    fn from(fault: StepFault) -> Failure {
        match fault {
            StepFault::Memory => Failure::Memory,
            _ => Failure::Wrong(0),
        }
    }
}

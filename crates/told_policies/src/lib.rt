//! A policy that tells a shared cell of each note, so that a test sees which policy a node has.
//!
//! It promises to decide as the policy inside it, and to count nothing; what the cell has, no contract sees.
//! It stands on `admission_policy`, and only tests stand on it.
#![tactic(auto)]

ghost use Rattle.std.specs.Prelude.{◌≡◌, IfOk};

use admission_policy::Admission;
use std::alloc::AllocError;
use std::sync::Arc;
use std::sync::atomic::{AtomicU64, Ordering};

/// A policy, and what it adds to a cell that others share at each note: one number for a reader that is admitted, and
/// another for one that has to wait.
#[derive(Drop)]
pub struct Telling<P: Admission> {
    inner: P,
    admitted: u64,
    waiting: u64,
    cell: Arc<AtomicU64>,
}

impl<P: Admission> Telling<P> {
    /// The policy, which adds these numbers to that cell.
    pub fn of(
        inner: P,
        admitted: u64,
        waiting: u64,
        cell: &Arc<AtomicU64>,
    ) -> Result<Telling<P>, AllocError>
        ensures { IfOk result (λ t. t.inner ≡ inner) }
    {
        let cell = Arc::try_clone(cell)?;
        Ok(Telling {
            inner,
            admitted,
            waiting,
            cell,
        })
    }
}

impl<P: Admission> Admission for Telling<P> {
    ghost use Rattle.std.specs.Prelude.{◌≡◌};

    ghost problem_of = { λ s. P.problem_of s.inner };

    ghost tally_of = { λ _. (0, 0) };

    ghost notes = { λ s admitted t. P.notes s.inner admitted t.inner };

    fn problem(&self) -> u8 {
        self.inner.problem()
    }

    fn admits(&self, writer_holds: bool, writer_waits: bool) -> bool {
        self.inner.admits(writer_holds, writer_waits)
    }

    fn note(&mut self, admitted: bool) {
        self.inner.note(admitted);
        let told = if admitted {
            self.admitted
        } else {
            self.waiting
        };
        self.cell.fetch_add(told, Ordering::SeqCst);
    }

    fn tally(&self) -> (u64, u64) {
        (0, 0)
    }
}

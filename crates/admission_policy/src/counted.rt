// A policy that counts.

ghost use Rattle.std.specs.Prelude.{◌≡◌};
ghost use Rattle.lock_model.specs.ExactStations.{admits_reader};
ghost use Rattle.admission_policy.specs.Policies.{problem_number, tally_after};

use crate::Admission;
use std::marker::Model;

/// A policy that answers as its inner one, and counts what it is told: the readers that were
/// admitted, and those that wait. Each count stops at `u64::MAX` (our own). Contracts see it as the
/// inner policy and the two counts.
#[derive(Drop)]
pub struct Counted<P: Admission> {
    inner: P,
    yes: u64,
    no: u64,
}

impl<P: Admission> Model for Counted<P> {
    ghost use Rattle.admission_policy.specs.Policies.{Tallied};

    ghost Value = { Tallied P };

    ghost view = { λ s. record { policy = s.inner; tally = (s.yes, s.no) } };
}

impl<P: Admission> Counted<P> {
    /// The policy, with nothing counted yet.
    pub fn of(inner: P) -> Counted<P>
        ensures { result ≡ record { policy = inner; tally = (0, 0) } }
    {
        Counted {
            inner,
            yes: 0,
            no: 0,
        }
    }

    /// The inner policy, as the notes left it.
    pub fn into_inner(self) -> P
        ensures { result ≡ self.policy }
    {
        let Counted { inner, .. } = self;
        inner
    }
}

impl<P: Admission> Admission for Counted<P> {
    ghost use Rattle.std.specs.Prelude.{◌≡◌};
    ghost use Rattle.admission_policy.specs.Policies.{tally_after};

    ghost problem_of = { λ s. P.problem_of s.policy };

    ghost tally_of = { λ s. s.tally };

    ghost notes = { λ s admitted t. P.notes s.policy admitted t.policy × (t.tally ≡ tally_after admitted s.tally) };

    fn problem(&self) -> u8 {
        self.inner.problem()
    }

    fn admits(&self, writer_holds: bool, writer_waits: bool) -> bool {
        self.inner.admits(writer_holds, writer_waits)
    }

    fn note(&mut self, admitted: bool) {
        self.inner.note(admitted);
        if admitted {
            self.yes = self.yes.saturating_add(1);
        } else {
            self.no = self.no.saturating_add(1);
        }
    }

    fn tally(&self) -> (u64, u64) {
        (self.yes, self.no)
    }
}

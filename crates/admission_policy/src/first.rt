// The policy of problem 1.

ghost use Rattle.std.specs.Prelude.{◌≡◌, not};

use crate::Admission;

/// Problem 1: a reader waits only where a writer holds the resource. It counts nothing.
#[derive(Clone, Copy, Debug, PartialEq, Eq)]
pub struct FirstProblem;

impl Admission for FirstProblem {
    ghost use Rattle.std.specs.Prelude.{◌≡◌};
    ghost use Rattle.lock_model.specs.declared.problems.Problem.TheVariants.{First};

    ghost problem_of = { λ _. First };

    ghost tally_of = { λ _. (0, 0) };

    ghost notes = { λ s _ t. t ≡ s };

    fn problem(&self) -> u8
        ensures { result ≡ 1 }
    {
        1
    }

    fn admits(&self, writer_holds: bool, _writer_waits: bool) -> bool
        ensures { result ≡ not writer_holds }
    {
        !writer_holds
    }

    fn note(&mut self, _admitted: bool)
        ensures { self.new ≡ self.old }
    {}

    fn tally(&self) -> (u64, u64)
        ensures { result ≡ (0, 0) }
    {
        (0, 0)
    }
}

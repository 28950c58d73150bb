// The policy of problem 2.

ghost use Rattle.std.specs.Prelude.{◌≡◌, ◌&&◌, not};

use crate::Admission;

/// Problem 2: a reader waits also where a writer waits for the resource. It counts nothing.
#[derive(Clone, Copy, Debug, PartialEq, Eq)]
pub struct SecondProblem;

impl Admission for SecondProblem {
    ghost use Rattle.std.specs.Prelude.{◌≡◌};
    ghost use Rattle.lock_model.specs.declared.problems.Problem.TheVariants.{Second};

    ghost problem_of = { λ _. Second };

    ghost tally_of = { λ _. (0, 0) };

    ghost notes = { λ s _ t. t ≡ s };

    fn problem(&self) -> u8
        ensures { result ≡ 2 }
    {
        2
    }

    fn admits(&self, writer_holds: bool, writer_waits: bool) -> bool
        ensures { result ≡ (not writer_holds && not writer_waits) }
    {
        !writer_holds && !writer_waits
    }

    fn note(&mut self, _admitted: bool)
        ensures { self.new ≡ self.old }
    {}

    fn tally(&self) -> (u64, u64)
        ensures { result ≡ (0, 0) }
    {
        (0, 0)
    }
}

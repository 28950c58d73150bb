// What a policy is.

ghost use Rattle.std.specs.Prelude.{◌≡◌, ◌⊎◌, ℕ, Bool, true, false};
ghost use Rattle.lock_model.specs.declared.problems.Problem.{Problem};
ghost use Rattle.lock_model.specs.ExactStations.{admits_reader};
ghost use Rattle.admission_policy.specs.Policies.{problem_number};

use lock_model::Problem;

/// Which readers a node admits (Courtois, Heymans and Parnas 1971).
///
/// What a policy means is in the ghost members. `problem_of`: the problem that it solves; its answers
/// follow from it. `tally_of`: how many notes of an admitted reader it counts, and how many of one
/// that waits. `notes`: what a note makes of it. No method takes memory.
pub trait Admission: Drop {
    ghost problem_of: { Self → Problem };

    ghost tally_of: { Self → ℕ × ℕ };

    ghost notes: { Self → Bool → Self → Type 0 };

    /// The number of the problem that the policy solves, 1 or 2.
    fn problem(&self) -> u8
        ensures number { result ≡ problem_number (problem_of self.now) }
        ensures range { (result ≡ 1) ⊎ (result ≡ 2) };

    /// Whether a reader is admitted to a resource that a writer holds or not, and that a writer waits
    /// for or not: never where one holds it; always where none holds it and none waits; where one
    /// only waits, under problem 1.
    fn admits(&self, writer_holds: bool, writer_waits: bool) -> bool
        ensures rule { result ≡ admits_reader (problem_of self.now) writer_holds writer_waits }
        ensures held { writer_holds ≡ true → result ≡ false }
        ensures free { writer_holds ≡ false → writer_waits ≡ false → result ≡ true }
        ensures first { problem_number (problem_of self.now) ≡ 1 → writer_holds ≡ false → writer_waits ≡ true → result ≡ true }
        ensures second { problem_number (problem_of self.now) ≡ 2 → writer_holds ≡ false → writer_waits ≡ true → result ≡ false };

    /// Tells the policy that a new reader was admitted, or that it has to wait. The problem stays,
    /// and so does every answer of `admits`.
    fn note(&mut self, admitted: bool)
        ensures notes { notes self.old admitted self.new }
        ensures problem { problem_of self.new ≡ problem_of self.old }
        ensures answers { (holds waits : Bool) → admits_reader (problem_of self.new) holds waits ≡ admits_reader (problem_of self.old) holds waits };

    /// How many notes of an admitted reader were counted, and how many of one that waits; a count
    /// stops at `u64::MAX`.
    fn tally(&self) -> (u64, u64)
        ensures { result ≡ tally_of self.now };
}

/// The problem that the policy solves.
pub fn problem_of(policy: &(dyn Admission + Send)) -> Problem
    ensures { result ≡ problem_of policy.now }
{
    if policy.problem() == 1 {
        Problem::First
    } else {
        Problem::Second
    }
}

// The policies of both problems.

ghost use Rattle.std.specs.Prelude.{◌≡◌, ◌↔◌, IsTrue, Some, None, IfSome};
ghost use Rattle.std.specs.DynBox.{dyn_box_with};
ghost use Rattle.lock_model.specs.declared.problems.Problem.TheVariants.{First, Second};
ghost use Rattle.lock_model.specs.ExactStations.{admits_reader};

use crate::{Admission, problem_of};
use lock_model::Problem;

/// A policy for each of both problems. A node asks the one of its present problem, and tells that one
/// what became of readers, so a switch of the problem leaves each half what it was told (our own).
///
/// A half without a policy applies the problem's plain rule, and counts nothing. A pair without any is
/// written out, and takes no memory: a call that makes one would count, in another crate, as one that may
/// make a box.
#[derive(Drop)]
pub struct Pair {
    /// The policy of problem 1; none for the plain rule.
    pub first: Option<Box<dyn Admission + Send>>,
    /// The policy of problem 2; none for the plain rule.
    pub second: Option<Box<dyn Admission + Send>>,
}

fn same_problem(a: Problem, b: Problem) -> bool
    ensures { IsTrue result ↔ (a ≡ b) }
{
    a == b
}

/// Whether a reader is admitted, by the rule of the problem. The policy says so. A struct can keep no
/// fact about a policy in a box, so one of the other problem is not asked, and the rule is applied.
fn admits_by(
    policy: &(dyn Admission + Send),
    problem: Problem,
    writer_holds: bool,
    writer_waits: bool,
) -> bool
    ensures { result ≡ admits_reader problem writer_holds writer_waits }
{
    if same_problem(problem_of(policy), problem) {
        policy.admits(writer_holds, writer_waits)
    } else {
        problem.admits_reader(writer_holds, writer_waits)
    }
}

/// The same where there may be no policy.
fn half_admits(
    half: &Option<Box<dyn Admission + Send>>,
    problem: Problem,
    writer_holds: bool,
    writer_waits: bool,
) -> bool
    ensures { result ≡ admits_reader problem writer_holds writer_waits }
{
    match half {
        Some(policy) => admits_by(&**policy, problem, writer_holds, writer_waits),
        None => problem.admits_reader(writer_holds, writer_waits),
    }
}

/// Tells the policy, if there is one, that a new reader was admitted, or that it has to wait.
fn tell(half: &mut Option<Box<dyn Admission + Send>>, admitted: bool)
    requires { Unit {0} }
    ensures told { IfSome half.old (λ b. (after : _) × notes b admitted after × (half.new ≡ Some (dyn_box_with b b.vtable after))) }
    ensures none { half.old ≡ None → half.new ≡ None }
{
    if let Some(policy) = half {
        policy.note(admitted);
    }
}

impl Pair {
    /// Both policies. The caller owes that the first is of problem 1 and the second of problem 2
    /// (`problem`).
    pub fn of(first: Box<dyn Admission + Send>, second: Box<dyn Admission + Send>) -> Pair
        requires first { problem_of first ≡ First }
        requires second { problem_of second ≡ Second }
        ensures { result ≡ record { first = Some first; second = Some second } }
    {
        Pair {
            first: Some(first),
            second: Some(second),
        }
    }

    /// Whether a reader is admitted under this problem (Courtois, Heymans and Parnas 1971) to a
    /// resource that a writer holds or not, and that a writer waits for or not. The policy of the
    /// problem is asked.
    pub fn admits(&self, problem: Problem, writer_holds: bool, writer_waits: bool) -> bool
        ensures { result ≡ admits_reader problem writer_holds writer_waits }
    {
        match problem {
            Problem::First => half_admits(&self.first, problem, writer_holds, writer_waits),
            Problem::Second => half_admits(&self.second, problem, writer_holds, writer_waits),
        }
    }

    /// Tells the policy of this problem, once, that a new reader was admitted, or that it has to wait.
    /// The other is told nothing.
    pub fn note(&mut self, problem: Problem, admitted: bool)
        requires { Unit {0} }
        ensures first { problem ≡ First → IfSome self.old.first (λ b. (after : _) × notes b admitted after × (self.new ≡ record { first = Some (dyn_box_with b b.vtable after); second = self.old.second })) }
        ensures second { problem ≡ Second → IfSome self.old.second (λ b. (after : _) × notes b admitted after × (self.new ≡ record { first = self.old.first; second = Some (dyn_box_with b b.vtable after) })) }
        ensures no_first { problem ≡ First → self.old.first ≡ None → self.new ≡ self.old }
        ensures no_second { problem ≡ Second → self.old.second ≡ None → self.new ≡ self.old }
    {
        match problem {
            Problem::First => tell(&mut self.first, admitted),
            Problem::Second => tell(&mut self.second, admitted),
        }
    }

    /// What the policy of this problem counts of what it was told (`Admission::tally`); nothing where
    /// there is none.
    pub fn tally(&self, problem: Problem) -> (u64, u64)
        ensures first { problem ≡ First → IfSome self.now.first (λ b. result ≡ tally_of b) }
        ensures second { problem ≡ Second → IfSome self.now.second (λ b. result ≡ tally_of b) }
        ensures no_first { problem ≡ First → self.now.first ≡ None → result ≡ (0, 0) }
        ensures no_second { problem ≡ Second → self.now.second ≡ None → result ≡ (0, 0) }
    {
        let half = match problem {
            Problem::First => &self.first,
            Problem::Second => &self.second,
        };
        match half {
            Some(policy) => policy.tally(),
            None => (0, 0),
        }
    }
}

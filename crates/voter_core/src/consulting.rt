// What a node's policies are told.

ghost use Rattle.std.specs.Prelude.{◌≡◌, Some, None, IfSome};
ghost use Rattle.std.specs.DynBox.{dyn_box_with};
ghost use Rattle.lock_messages.specs.declared.tickets.Mode.{Mode};
ghost use Rattle.lock_model.specs.declared.problems.Problem.{Problem};

use admission_policy::Pair;
use lock_messages::Mode;
use lock_model::Problem;

/// Tells the policy of the problem what became of a new ticket: of a reader's once, of a writer's nothing.
pub(crate) fn note(policies: &mut Pair, problem: Problem, mode: Mode, admitted: bool)
    ensures first { mode ≡ Mode.Read → problem ≡ Problem.First → IfSome policies.old.first (λ p. (after : _) × notes (p.vtable, p.value) admitted after × (policies.new ≡ record { first = Some (dyn_box_with p p.vtable after); second = policies.old.second })) }
    ensures second { mode ≡ Mode.Read → problem ≡ Problem.Second → IfSome policies.old.second (λ p. (after : _) × notes (p.vtable, p.value) admitted after × (policies.new ≡ record { first = policies.old.first; second = Some (dyn_box_with p p.vtable after) })) }
    ensures no_first { problem ≡ Problem.First → policies.old.first ≡ None → policies.new ≡ policies.old }
    ensures no_second { problem ≡ Problem.Second → policies.old.second ≡ None → policies.new ≡ policies.old }
    ensures writer { mode ≡ Mode.Write → policies.new ≡ policies.old }
{
    match mode {
        Mode::Read => policies.note(problem, admitted),
        Mode::Write => {}
    }
}

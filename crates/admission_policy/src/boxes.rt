// A box of a policy is one.

ghost use Rattle.std.specs.Prelude.{◌≡◌};

use crate::Admission;

/// A box is the policy in it.
impl Admission for Box<dyn Admission + Send> {
    ghost use Rattle.std.specs.Prelude.{◌≡◌};
    ghost use Rattle.std.specs.DynBox.{dyn_box_with};

    ghost problem_of = { λ b. (Admission-box b).problem_of b.value };

    ghost tally_of = { λ b. (Admission-box b).tally_of b.value };

    ghost notes = { λ b admitted c. (after : _) × (Admission-box b).notes b.value admitted after × (c ≡ dyn_box_with b b.vtable after) };

    fn problem(&self) -> u8 {
        (**self).problem()
    }

    fn admits(&self, writer_holds: bool, writer_waits: bool) -> bool {
        (**self).admits(writer_holds, writer_waits)
    }

    fn note(&mut self, admitted: bool) {
        (**self).note(admitted);
    }

    fn tally(&self) -> (u64, u64) {
        (**self).tally()
    }
}

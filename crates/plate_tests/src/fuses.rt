//! What the contracts of a plate in memory tell of its fuse.

ghost use Rattle.std.specs.Prelude.{IsTrue};

use slot_record::{MemoryPlate, Plate};
use std::alloc::Global;
use test_outcomes::{Outcome, check_answer};

/// Whether the second call from now fails, by a fuse: yes, which is proved from the contracts of the calls.
fn second_call_fails(plate: &mut MemoryPlate) -> bool
    ensures { IsTrue result }
{
    plate.fuse(2);
    let _first = plate.sync();
    plate.sync().is_err()
}

/// The second call fails, and so does the third; once the fuse is out the next one goes.
fn burns(alloc: Global) -> Option<bool> {
    let mut plate = MemoryPlate::of(alloc, 3).ok()?;
    let second = second_call_fails(&mut plate);
    let third = plate.sync().is_err();
    plate.mend();
    plate.sync().ok()?;
    Some(second && third)
}

#[test]
fn fuse_and_mend(rt: HostRuntime) -> Outcome {
    check_answer(burns(rt.alloc()), 0)
}

// What ends a test.

ghost use Rattle.std.specs.Prelude.{◌≡◌, true, false, All, OnOk, IfErr};
ghost use Rattle.test_outcomes.specs.Answers.{IsRight, IsNotRight, TellsTheFirst};

use crate::{Failure, Outcome};

/// Ends the test, as wrong in its first row, where something is not so.
pub fn check(holds: bool) -> Outcome
    ensures passes { OnOk result (holds ≡ true) }
    ensures fails { IfErr result (λ failure. (holds ≡ false) × (failure ≡ Failure.Wrong 0)) }
{
    check_row(holds, 0)
}

/// Ends the test, as wrong in the row, where something is not so.
pub fn check_row(holds: bool, row: usize) -> Outcome
    ensures passes { OnOk result (holds ≡ true) }
    ensures fails { IfErr result (λ failure. (holds ≡ false) × (failure ≡ Failure.Wrong row)) }
{
    if holds {
        Ok(())
    } else {
        Err(Failure::Wrong(row))
    }
}

/// Ends the test where the answer to a row is wrong, or there is none.
pub fn check_answer(answer: Option<bool>, row: usize) -> Outcome
    ensures passes { OnOk result (IsRight answer) }
    ensures fails { IfErr result (λ failure. IsNotRight answer row failure) }
{
    match answer {
        Some(true) => Ok(()),
        Some(false) => Err(Failure::Wrong(row)),
        None => Err(Failure::NoAnswer(row)),
    }
}

/// Ends the test at the first of these answers, each to its row, that is wrong or isn't there. (One call with all
/// answers is cheaper to prove than an exit behind each.)
pub fn check_answers(answers: &[Option<bool>]) -> Outcome
    ensures passes { OnOk result (All IsRight answers.now) }
    ensures fails { IfErr result (λ failure. TellsTheFirst answers.now failure) }
{
    for (row, answer) in answers.iter().enumerate() {
        check_answer(*answer, row)?;
    }
    Ok(())
}

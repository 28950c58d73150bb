// The post of a line.

ghost use Rattle.std.specs.Prelude.{◌≡◌, ℕ, List, Some, IfOk, IfSome};
ghost use Rattle.hex.specs.Hex.{IsBytes};
ghost use Rattle.lock_model.specs.declared.problems.Problem.{Problem as ProblemValue};
ghost use Rattle.admission_policy.specs.Policies.{problem_number};
ghost use Rattle.frame_lines.specs.FrameLines.{IsOkUnlessMemory, counted, frame_line};
ghost use Rattle.line_link.specs.Posts.{IsPostOf, IsSwitchFor, frame_post, switch_post};

use frame_lines::Inlet;
use lock_messages::Actor;
use lock_model::Problem;
use lossy_link::{Parcel, Post};
use std::alloc::{AllocError, Global};
use switch_lines::read_switch;

/// The number by which a post names a problem.
fn number_of(problem: Problem) -> u8
    ensures { result ≡ problem_number problem }
{
    match problem {
        Problem::First => 1,
        Problem::Second => 2,
    }
}

/// The problem that a line asks the actor to take, if it asks that of this actor. The only error is running out of
/// memory.
fn switch_in(alloc: Global, inlet: &Inlet, line: &[u8]) -> Result<Option<Problem>, AllocError>
    ensures accepted { IfOk result (λ o. IfSome o (λ problem. IsSwitchFor inlet.now.block inlet.now.own line.now problem)) }
    ensures only { (problem : ProblemValue) → IsSwitchFor inlet.now.block inlet.now.own line.now problem → IsOkUnlessMemory result (Some problem) }
{
    match inlet.own() {
        Actor::Node(node) => read_switch(alloc, inlet.secret(), node, line),
        Actor::Client(_) => Ok(None),
    }
}

/// The post of a line that asks for no switch.
fn frame_in(inlet: &mut Inlet, line: &[u8]) -> Result<Option<Post>, AllocError>
    ensures brought { IfOk result (λ o. IfSome o (λ post. IsPostOf inlet.old.block inlet.old.own line.now post)) }
    ensures frame { (frame : List ℕ) → IsBytes frame → line.now ≡ frame_line inlet.old.block inlet.old.own frame → IsOkUnlessMemory result (Some (frame_post frame)) }
    ensures counted { inlet.new ≡ counted inlet.old result }
{
    match inlet.accept(line)? {
        Some(frame) => Ok(Some(Post::Parcel(Parcel { number: 1, frame }))),
        None => Ok(None),
    }
}

/// The post of a line, which is given without its line feed, or `None` for a line that is dropped. The only error is
/// running out of memory. Then the line is lost and not counted.
pub(crate) fn post_in(
    alloc: Global,
    inlet: &mut Inlet,
    line: &[u8],
) -> Result<Option<Post>, AllocError>
    ensures brought { IfOk result (λ o. IfSome o (λ post. IsPostOf inlet.old.block inlet.old.own line.now post)) }
    ensures frame { (frame : List ℕ) → IsBytes frame → line.now ≡ frame_line inlet.old.block inlet.old.own frame → IsOkUnlessMemory result (Some (frame_post frame)) }
    ensures switch { (problem : ProblemValue) → IsSwitchFor inlet.old.block inlet.old.own line.now problem → IsOkUnlessMemory result (Some (switch_post problem)) }
    ensures counted { inlet.new ≡ counted inlet.old result }
{
    if let Some(problem) = switch_in(alloc, inlet, line)? {
        return Ok(Some(Post::Switch(number_of(problem))));
    }
    frame_in(inlet, line)
}

// The line of a switch.

ghost use Rattle.std.specs.Prelude.{◌≡◌, ◌↔◌, ◌∷◌, [], ◌++◌, Some, IfOk, IfSome, IsTrue, codes, string_bytes};
ghost use Rattle.lock_messages.specs.Texts.{node_text};
ghost use Rattle.lock_model.specs.declared.problems.Problem.{Problem as ProblemValue};
ghost use Rattle.frame_lines.specs.FrameLines.{IsOkUnlessMemory};
ghost use Rattle.switch_lines.specs.SwitchLines.{order_text, switch_line, switch_tag};

use frame_lines::Secret;
use lock_messages::NodeId;
use lock_model::Problem;
use std::alloc::{AllocError, Global};

/// How many bytes of the digest are the tag.
const TAG_BYTES: usize = 8;

/// What the node is asked.
fn order_of(problem: Problem) -> &'static str
    ensures { result.now ≡ order_text problem }
{
    match problem {
        Problem::First => "switch 1",
        Problem::Second => "switch 2",
    }
}

/// The tag of a switch. The only error is running out of memory.
fn tag_of(
    alloc: Global,
    secret: &Secret,
    node: NodeId,
    problem: Problem,
) -> Result<String, AllocError>
    ensures { IfOk result (λ tag. string_bytes tag ≡ switch_tag secret.now node problem) }
{
    let name = format!(in alloc; " {node}")?;
    let order = order_of(problem);
    let digest = secret.digest(order.as_bytes(), name.as_bytes());
    hex::encode(alloc, &digest[..TAG_BYTES])
}

/// The line of a switch, without its line feed. The only error is running out of memory.
fn switch_text(
    alloc: Global,
    secret: &Secret,
    node: NodeId,
    problem: Problem,
) -> Result<String, AllocError>
    ensures { IfOk result (λ line. string_bytes line ≡ switch_line secret.now node problem) }
{
    let tag = tag_of(alloc, secret, node, problem)?;
    let order = order_of(problem);
    format!(in alloc; "{node} {order} {tag}")
}

/// The line that asks a node to take a problem, with its line feed. The only error is running out of memory.
pub fn write_switch(
    alloc: Global,
    secret: &Secret,
    node: NodeId,
    problem: Problem,
) -> Result<String, AllocError>
    ensures { IfOk result (λ line. string_bytes line ≡ switch_line secret.now node problem ++ 10 ∷ []) }
{
    let mut line = switch_text(alloc, secret, node, problem)?;
    line.push('\n')?;
    Ok(line)
}

/// How each line begins that asks the node for a switch. The only error is running out of memory.
fn beginning_for(alloc: Global, node: NodeId) -> Result<String, AllocError>
    ensures { IfOk result (λ text. string_bytes text ≡ node_text node ++ codes " switch ") }
{
    format!(in alloc; "{node} switch ")
}

/// Whether the line is the one that asks the node to take the problem. The only error is running out of memory.
fn is_switch(
    alloc: Global,
    secret: &Secret,
    node: NodeId,
    problem: Problem,
    line: &[u8],
) -> Result<bool, AllocError>
    ensures { IfOk result (λ is. IsTrue is ↔ (line.now ≡ switch_line secret.now node problem)) }
{
    let text = switch_text(alloc, secret, node, problem)?;
    Ok(text.as_bytes() == line)
}

/// The problem that a line asks the node to take. The line is given without its line feed.
///
/// It returns a problem exactly if the line is the one line of that problem for this node under this secret. The only
/// error is running out of memory.
pub fn read_switch(
    alloc: Global,
    secret: &Secret,
    node: NodeId,
    line: &[u8],
) -> Result<Option<Problem>, AllocError>
    ensures accepted { IfOk result (λ o. IfSome o (λ problem. line.now ≡ switch_line secret.now node problem)) }
    ensures only { (problem : ProblemValue) → line.now ≡ switch_line secret.now node problem → IsOkUnlessMemory result (Some problem) }
{
    let beginning = beginning_for(alloc, node)?;
    if !line.starts_with(beginning.as_bytes()) {
        return Ok(None);
    }
    if is_switch(alloc, secret, node, Problem::First, line)? {
        return Ok(Some(Problem::First));
    }
    if is_switch(alloc, secret, node, Problem::Second, line)? {
        return Ok(Some(Problem::Second));
    }
    Ok(None)
}

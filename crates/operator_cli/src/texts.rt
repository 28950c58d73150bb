// What the commands print.

ghost use Rattle.std.specs.Prelude.{◌≡◌, ◌+◌, ◌<◌, ◌≤◌, ◌++◌, OnOk, string_bytes};
ghost use Rattle.std.specs.List.{flat_map};
ghost use Rattle.world_model.specs.Laws.{SaidFits};
ghost use Rattle.operator_cli.specs.Texts.{sent_text, found_text, said_text, changed_text, heard_text, effect_text, refused_text, member_text, other_text, members_text, answer_text, line_fault_text, ballot_text, ballots_text};
ghost use Rattle.world_model.specs.declared.TheConstants.{MAX_MESSAGES};
ghost use Rattle.world_model.specs.ExactWorlds.{numbered};

use event_lines::{Line, Query, write_line};
use lock_messages::{Message, Ticket};
use lock_model::Heard;
use std::alloc::{AllocError, Global};
use vote_weights::{Ballot, BallotList};
use world_machine::World;
use world_model::Effect;

/// Adds the line of a message that was sent.
fn push_sent(text: &mut String, number: u32, message: &Message) -> Result<(), AllocError>
    ensures { OnOk result (string_bytes text.new ≡ string_bytes text.old ++ sent_text number message.now) }
{
    writeln!(text, "sent {number} {message}")
}

/// The line of the message with this number, if one has it.
fn push_found(text: &mut String, world: &World, number: u32) -> Result<(), AllocError>
    ensures { OnOk result (string_bytes text.new ≡ string_bytes text.old ++ found_text number (numbered world.now.sent number)) }
{
    if let Some(message) = world.sent(number) {
        push_sent(text, number, &message)?;
    }
    Ok(())
}

/// Adds the lines of so many messages, from this number on.
#[tactic(auto, unfolding(crate::specs::Texts::said_text))]
fn push_said(text: &mut String, world: &World, first: u32, count: u32) -> Result<(), AllocError>
    requires { 0 < count → first + count ≤ MAX_MESSAGES + 1 }
    ensures { OnOk result (string_bytes text.new ≡ string_bytes text.old ++ said_text world.now.sent first count) }
{
    for number in first..first + count {
        push_found(text, world, number)?;
    }
    Ok(())
}

/// Whether a node has another record than before.
fn changed_text(changed: bool) -> &'static str
    ensures { result.now ≡ changed_text changed }
{
    if changed { "changed\n" } else { "same\n" }
}

/// What a client made of a message.
fn heard_text(heard: Heard) -> &'static str
    ensures { result.now ≡ heard_text heard }
{
    match heard {
        Heard::Counted => "counted\n",
        Heard::Known => "known\n",
        Heard::Busy => "busy\n",
        Heard::Done => "done\n",
        Heard::Softened => "softened\n",
        Heard::NotMine => "not mine\n",
    }
}

/// Adds what an event prints, in the world after it.
pub(crate) fn push_effect(
    text: &mut String,
    world: &World,
    effect: &Effect,
) -> Result<(), AllocError>
    requires { SaidFits effect.now }
    ensures { OnOk result (string_bytes text.new ≡ string_bytes text.old ++ effect_text world.now.sent effect.now) }
{
    match *effect {
        Effect::Chose(attempt) => writeln!(text, "chose {attempt}"),
        Effect::Tried => text.push_str("tried\n"),
        Effect::Kept => text.push_str("kept\n"),
        Effect::Sent(number, message) => push_sent(text, number, &message),
        Effect::Said { first, count } => push_said(text, world, first, count),
        Effect::Took(_, changed) => text.push_str(changed_text(changed)),
        Effect::Heard(_, heard) => text.push_str(heard_text(heard)),
        Effect::Inside => text.push_str("inside\n"),
        Effect::Outside => text.push_str("outside\n"),
        Effect::Softened => text.push_str("softened\n"),
        Effect::Down => text.push_str("down\n"),
        Effect::Up => text.push_str("up\n"),
        Effect::Switched(changed) => text.push_str(changed_text(changed)),
    }
}

/// Adds that an event was refused.
pub fn push_refused(text: &mut String, number: u16) -> Result<(), AllocError>
    ensures { OnOk result (string_bytes text.new ≡ string_bytes text.old ++ refused_text number) }
{
    writeln!(text, "refused {number}")
}

/// Adds a ticket of a list.
fn push_member(text: &mut String, ticket: &Ticket) -> Result<(), AllocError>
    ensures { OnOk result (string_bytes text.new ≡ string_bytes text.old ++ member_text ticket.now) }
{
    let (client, mode) = (ticket.client, ticket.mode);
    write!(text, "{client} {mode}")
}

/// Adds the tickets of a list behind the first one.
fn push_others(text: &mut String, tickets: &[Ticket]) -> Result<(), AllocError>
    ensures { OnOk result (string_bytes text.new ≡ string_bytes text.old ++ flat_map other_text tickets.now) }
{
    for ticket in tickets {
        text.push_str(", ")?;
        push_member(text, ticket)?;
    }
    Ok(())
}

/// Adds the tickets of a list, or that there are none.
fn push_members(text: &mut String, tickets: &[Ticket]) -> Result<(), AllocError>
    ensures { OnOk result (string_bytes text.new ≡ string_bytes text.old ++ members_text tickets.now) }
{
    let [first, others @ ..] = tickets else {
        return text.push_str("nobody");
    };
    push_member(text, first)?;
    push_others(text, others)
}

/// Adds the query again, and the tickets that it asks for.
pub fn push_answer(
    alloc: Global,
    text: &mut String,
    query: &Query,
    tickets: &[Ticket],
) -> Result<(), AllocError>
    ensures { OnOk result (string_bytes text.new ≡ string_bytes text.old ++ answer_text query.now tickets.now) }
{
    let asked = write_line(alloc, &Line::Query(*query))?;
    write!(text, "{asked}: ")?;
    push_members(text, tickets)?;
    text.push_str("\n")
}

/// Adds that a line is no event and no query.
pub fn push_line_fault(text: &mut String, line: u64, number: u16) -> Result<(), AllocError>
    ensures { OnOk result (string_bytes text.new ≡ string_bytes text.old ++ line_fault_text line number) }
{
    writeln!(text, "line {line} fault {number}")
}

/// Adds what a ballot is.
fn push_ballot(text: &mut String, ballot: Ballot) -> Result<(), AllocError>
    ensures { OnOk result (string_bytes text.new ≡ string_bytes text.old ++ ballot_text ballot) }
{
    let (total, read, write) = (ballot.total(), ballot.read(), ballot.write());
    writeln!(text, "total {total} read {read} write {write}")
}

/// Adds what each of the ballots is, in order.
pub fn push_ballots(text: &mut String, ballots: &BallotList) -> Result<(), AllocError>
    ensures { OnOk result (string_bytes text.new ≡ string_bytes text.old ++ ballots_text ballots.now) }
{
    for place in 1..ballots.count() + 1 {
        let Some(ballot) = ballots.ballot(place) else {
            unreachable!()
        };
        push_ballot(text, ballot)?;
    }
    Ok(())
}

// What is checked of a run that has ended.

use crate::posts::add_sendings;
use crate::runs::Answer;
use crate::watches::Seen;
use event_recorders::RunFault;
use lock_messages::Actor;
use lossy_link::{Post, Sending};
use std::alloc::Global;
use test_outcomes::{Failure, Outcome, check_row, node_id};
use test_support::{Match, count_of, text_of, told};

/// What a run has to leave. Of a run for which memory was refused (914) less is checked.
#[derive(Clone, Copy)]
pub(crate) enum Check {
    /// Just these steps are logged behind those of the others before it; where memory was refused, the first of
    /// them.
    Logs(&'static str),
    /// The first of these steps, or all, are logged behind those of the others before, in any case.
    Begins(&'static str),
    /// The journal ends so.
    Ends(&'static str),
    /// So many lines are logged.
    Lines(usize),
    /// So many lines are logged by c1.
    OwnLines(usize),
    /// The line stands so often in the journal.
    Stands(&'static str, usize),
    /// Just this is sent and told; where memory was refused to a node, a beginning of it, and that it is gone.
    Sends(&'static str),
    /// So much is sent and told.
    Sent(usize),
    /// The last that is sent goes to n1, with this number.
    Last(u32),
    /// What is sent or told at this place is the frame, to the node of the number.
    Frame(usize, u8, &'static [u8]),
    /// So many nudges of n1 are told.
    Nudges(usize),
    /// The gate has seen these modes inside.
    Modes(u32),
    /// So many messages that were heard were not the hearer's.
    NotMine(u32),
    /// In any case the gate was called before a keep as often as the line is logged, before no keep of another
    /// actor, and inside as often as c1 enters.
    Called(&'static str),
    /// The gate was called so often before a keep and so often inside.
    Calls(u32, u32),
    /// In any case each call of the gate before a keep came in turn, and there were so many of calls and keeps.
    InTurn(u32),
}

/// What a run has left: whose loop it was, what others logged before it, the journal, what was sent and told, and
/// what the gate and the recorder have seen.
#[derive(Clone, Copy)]
pub(crate) struct Ended<'a> {
    pub(crate) actor: Actor,
    pub(crate) before: &'a str,
    pub(crate) journal: &'a [u8],
    pub(crate) sent: &'a [Sending],
    pub(crate) seen: Seen,
}

/// How many lines of a journal are c1's.
fn own_lines(text: &str) -> usize {
    let own = text
        .lines()
        .filter(|line| line.split(' ').nth(1) == Some("c1"));
    own.count()
}

/// Whether the journal is as the check says, if it is about the journal.
fn is_logged(before: &str, text: &str, check: &Check, is_cut: bool) -> bool {
    match check {
        Check::Logs(steps) if !is_cut => told(text, before, steps) == Match::All,
        Check::Logs(steps) | Check::Begins(steps) => told(text, before, steps) != Match::Else,
        Check::Ends(end) => is_cut || text.ends_with(end),
        Check::Lines(count) => is_cut || text.lines().count() == *count,
        Check::OwnLines(count) => is_cut || own_lines(text) == *count,
        Check::Stands(line, count) => is_cut || count_of(text, line) == *count,
        _ => true,
    }
}

/// Whether this is what was to be sent and told; of a node that was cut off, a beginning of that and then that it
/// is gone.
fn is_all(wanted: &[Sending], ended: &Ended<'_>, is_cut: bool) -> bool {
    match (ended.actor, ended.sent.split_last()) {
        (Actor::Node(node), last) if is_cut => last.is_some_and(|(last, before)| {
            *last == Sending::Told(Post::Gone(node)) && wanted.starts_with(before)
        }),
        _ => is_cut || ended.sent == wanted,
    }
}

/// Whether what was sent at a place is for the node of the number, and has the frame.
fn is_frame(sent: &[Sending], place: usize, node: u8, bytes: &[u8]) -> Result<bool, Failure> {
    let node = Actor::Node(test_support::node(node)?);
    match sent.get(place) {
        Some(Sending::Sent(to, parcel)) => Ok(*to == node && &*parcel.frame == bytes),
        _ => Ok(false),
    }
}

/// Whether the last that was sent is for n1, and has the number.
fn is_last(sent: &[Sending], number: u32) -> Result<bool, Failure> {
    let node = Actor::Node(node_id(1));
    match sent.last() {
        Some(Sending::Sent(to, parcel)) => Ok(*to == node && parcel.number == number),
        _ => Ok(false),
    }
}

/// How many of the sendings are nudges of n1.
fn nudges(sent: &[Sending]) -> Result<usize, Failure> {
    let nudge = Sending::Told(Post::Nudge(node_id(1)));
    Ok(sent.iter().filter(|sending| **sending == nudge).count())
}

/// Whether what was sent and told is as the check says, if it is about that.
fn is_sent(alloc: Global, ended: &Ended<'_>, check: &Check, is_cut: bool) -> Result<bool, Failure> {
    match check {
        Check::Sends(row) => {
            let mut wanted = Vec::new(alloc);
            match add_sendings(alloc, ended.actor, row, &mut wanted) {
                Ok(()) => Ok(is_all(&wanted, ended, is_cut)),
                Err(failure) => Err(failure),
            }
        }
        _ if is_cut => Ok(true),
        Check::Sent(count) => Ok(ended.sent.len() == *count),
        Check::Last(number) => is_last(ended.sent, *number),
        Check::Frame(place, node, bytes) => is_frame(ended.sent, *place, *node, bytes),
        Check::Nudges(count) => Ok(nudges(ended.sent)? == *count),
        _ => Ok(true),
    }
}

/// Whether what the gate and the recorder have seen is as the check says, if it is about that.
fn is_seen(seen: &Seen, text: &str, check: &Check, is_cut: bool) -> bool {
    match check {
        Check::Modes(modes) => is_cut || seen.modes == *modes,
        Check::NotMine(count) => is_cut || seen.not_mine == *count,
        Check::Called(tries) => {
            seen.own as usize == count_of(text, tries)
                && seen.others == 0
                && seen.inside as usize == count_of(text, "enter c1")
        }
        Check::Calls(own, inside) => is_cut || (seen.own == *own && seen.inside == *inside),
        Check::InTurn(count) => {
            seen.wrong == 0 && (is_cut || (seen.own == *count && seen.keeps == *count))
        }
        _ => true,
    }
}

/// Ends the test, in the row of the check, where one doesn't hold.
fn hold(alloc: Global, ended: &Ended<'_>, text: &str, checks: &[Check], is_cut: bool) -> Outcome {
    for (number, check) in checks.iter().enumerate() {
        let is_right = is_logged(ended.before, text, check, is_cut)
            && is_seen(&ended.seen, text, check, is_cut);
        check_row(is_right, number)?;
        check_row(is_sent(alloc, ended, check, is_cut)?, number)?;
    }
    Ok(())
}

/// Whether a run was cut off where memory was refused (914) that was not to be refused: another answer is wanted,
/// or more lines of c1's than are logged.
fn is_cut_off(text: &str, checks: &[Check], answer: Answer, wanted: Answer) -> bool {
    let Err((_, RunFault::Memory)) = answer else {
        return false;
    };
    let is_short = match checks.first() {
        Some(Check::OwnLines(count)) => own_lines(text) < *count,
        _ => false,
    };
    is_short || answer != wanted
}

/// Ends the test unless a run has left what is checked, and its loop answered as is wanted. That a node is gone is
/// told as far as there is memory for it.
pub(crate) fn judge(
    alloc: Global,
    ended: &Ended<'_>,
    checks: &[Check],
    found: Result<Answer, Failure>,
    wanted: Answer,
) -> Outcome {
    let answer = found?;
    let text = text_of(ended.journal)?;
    let is_cut = is_cut_off(text, checks, answer, wanted);
    let is_untold = matches!(ended.actor, Actor::Node(_)) && ended.sent.is_empty();
    if is_untold && answer.is_err() && !is_cut {
        return Err(Failure::Memory);
    }
    hold(alloc, ended, text, checks, is_cut)?;
    if is_cut {
        return Err(Failure::Memory);
    }
    check_row(answer == wanted, checks.len())
}

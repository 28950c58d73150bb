//! A client's attempts: scripts of calls, each with its answer, and what every message is in every
//! phase.

use crate::rows::{all, both, message, mode, node};
use crate::tables::{Table, each};
use client_core::{ClientCore, Phase};
use lock_messages::{ClientId, MAX_ATTEMPT, ResourceName};
use std::alloc::Global;
use std::fmt;
use test_outcomes::{Outcome, check_answer, check_answers};
use vote_weights::{Ballot, BallotList};

/// Adds what there is, or `nothing`.
fn tell<T: fmt::Display>(shown: &mut String, found: &Option<T>) -> Option<()> {
    match found {
        Some(found) => write!(shown, "{found}").ok(),
        None => shown.push_str("nothing").ok(),
    }
}

/// Begins an attempt, as `read a` by the ballot at place 1 or `read a 2` by that at place 2, and adds its
/// number or that of the fault.
fn begins(shown: &mut String, core: &mut ClientCore, wish: &str) -> Option<()> {
    let mut words = wish.split(' ');
    let mode = mode(words.next().unwrap_or(""));
    let resource = ResourceName::of(words.next().unwrap_or("").as_bytes());
    let place = words.next().unwrap_or("1").parse().unwrap_or(0);
    let (Some(mode), Some(resource)) = (mode, resource) else {
        return None;
    };
    match core.begin(resource, mode, place) {
        Ok(attempt) => write!(shown, "{attempt}").ok(),
        Err(fault) => write!(shown, "{}", fault.number()).ok(),
    }
}

/// Whether a call that is owed a phase was made: `kept`, `enter`, `soften` or `leave`.
fn moves(core: &mut ClientCore, call: &str) -> bool {
    if call == "kept" && core.phase() == Phase::Chosen {
        core.kept();
        true
    } else if call == "enter" && core.may_enter() {
        core.enter();
        true
    } else if call == "soften" && core.may_soften() {
        core.soften();
        true
    } else {
        call == "leave" && leaves(core)
    }
}

/// Whether the client could leave an attempt.
fn leaves(core: &mut ClientCore) -> bool {
    match core.phase() {
        Phase::Asking => {
            core.leave();
            true
        }
        Phase::Inside => {
            core.leave();
            true
        }
        _ => false,
    }
}

/// Hears a message, and adds what it is.
fn hears(shown: &mut String, core: &mut ClientCore, row: &str) -> Option<()> {
    match message(row) {
        Some(message) => write!(shown, "{:?}", core.hear(&message)).ok(),
        None => None,
    }
}

/// Skips a node, or adds what the client says to it.
fn meets(shown: &mut String, core: &mut ClientCore, skips: bool, word: &str) -> Option<()> {
    match node(word) {
        Some(node) if skips => {
            core.skip(node);
            Some(())
        }
        Some(node) => tell(shown, &core.message_for(node)),
        None => None,
    }
}

/// Makes a call that changes the client, and adds its answer.
fn changes(shown: &mut String, core: &mut ClientCore, call: &str) -> Option<()> {
    let (verb, rest) = call.split_once(' ').unwrap_or((call, ""));
    match verb {
        "begin" => begins(shown, core, rest),
        "hear" => hears(shown, core, rest),
        "skip" => meets(shown, core, true, rest),
        "say" => meets(shown, core, false, rest),
        _ => write!(shown, "{}", moves(core, call)).ok(),
    }
}

/// Makes a call, and adds its answer.
fn answers(shown: &mut String, core: &mut ClientCore, call: &str) -> Option<()> {
    match call {
        "phase" => write!(shown, "{:?}", core.phase()).ok(),
        "attempt" => write!(shown, "{}", core.attempt()).ok(),
        "ticket" => tell(shown, &core.ticket()),
        "next" => tell(shown, &core.next_ask()),
        "may" => write!(shown, "{}", core.may_enter()).ok(),
        "may_soften" => write!(shown, "{}", core.may_soften()).ok(),
        _ => changes(shown, core, call),
    }
}

/// Whether a call has this answer.
fn has_answer(alloc: Global, core: &mut ClientCore, call: &str, want: &str) -> Option<bool> {
    let mut shown = String::new(alloc);
    match answers(&mut shown, core, call) {
        Some(()) => Some(shown.as_str() == want),
        None => None,
    }
}

/// Whether the call of a row has the row's answer.
fn goes(alloc: Global, core: &mut ClientCore, row: &str) -> Option<bool> {
    let (call, want) = row.split_once(" > ").unwrap_or((row, ""));
    has_answer(alloc, core, call, want)
}

/// Votes, and what a reader and a writer need of them.
pub(crate) type Votes = (&'static [u8], u16, u16);

/// Three nodes, of which two are enough.
pub(crate) const PLAIN: &[Votes] = &[(&[1, 1, 1], 2, 2)];

/// The first node has two votes; a reader needs as many.
const WEIGHTED: &[Votes] = &[(&[2, 1, 1], 2, 3)];

/// The first node has three votes; a reader needs more of them than a writer.
pub(crate) const COSTLY_READS: &[Votes] = &[(&[3, 1, 1], 4, 3)];

/// Two ballots, of three nodes and of four.
const TWO_BALLOTS: &[Votes] = &[(&[2, 1, 1], 2, 3), (&[1, 1, 1, 1], 3, 4)];

fn ballot(votes: &Votes) -> Option<Ballot> {
    Ballot::of(votes.0, votes.1, votes.2).ok()
}

/// The ballots of these votes, of which there are one or two.
fn ballots(votes: &[Votes]) -> Option<BallotList> {
    let (first, other) = match votes {
        [one] => (ballot(one), None),
        [one, other] => (ballot(one), ballot(other)),
        _ => (None, None),
    };
    match (first, other) {
        (Some(one), Some(other)) => BallotList::of(&[one, other]).ok(),
        (Some(one), None) => BallotList::of(&[one]).ok(),
        (None, _) => None,
    }
}

/// Client 1 after this attempt, under these ballots.
pub(crate) fn risen(attempt: u64, votes: &[Votes]) -> Option<ClientCore> {
    match ballots(votes) {
        Some(ballots) if attempt <= MAX_ATTEMPT => {
            Some(ClientCore::rise(ClientId::of(1).unwrap(), attempt, ballots))
        }
        _ => None,
    }
}

/// A script, the attempt after which client 1 rises, and its ballots.
type Script = (u64, &'static [Votes], &'static str);

/// Makes the call of each row.
fn plays_on(alloc: Global, core: &mut ClientCore, rows: &str) -> Outcome {
    for (row, text) in rows.lines().enumerate() {
        check_answer(goes(alloc, core, text), row)?;
    }
    Ok(())
}

/// Plays a script.
fn plays(alloc: Global, script: &Script) -> Outcome {
    match risen(script.0, script.1) {
        Some(core) => {
            let mut core = core;
            plays_on(alloc, &mut core, script.2)
        }
        None => check_answer(None, 0),
    }
}

fn plays_all(alloc: Global, scripts: &[Script]) -> Outcome {
    for script in scripts {
        plays(alloc, script)?;
    }
    Ok(())
}

const FIRST_ATTEMPT: &str = "\
phase > Idle
attempt > 0
ticket > nothing
say n1 > nothing
begin read a > 1
attempt > 1
ticket > c1 1 read a
phase > Chosen
say n1 > nothing
next > nothing
kept > true
phase > Asking
say n3 > request n3 c1 1 read a
say n4 > nothing
may > false
hear grant n1 c1 1 read a > Counted
may > false
hear grant n2 c1 1 read a > Counted
may > true
enter > true
phase > Inside
say n3 > request n3 c1 1 read a
may > false
leave > true
phase > Idle
attempt > 1
say n1 > release n1 c1 1
say n2 > release n2 c1 1
say n3 > release n3 c1 1
say n4 > nothing";

#[test]
fn first_attempt(rt: HostRuntime) -> Outcome {
    plays(rt.alloc(), &(0, PLAIN, FIRST_ATTEMPT))
}

const REPEATED_GRANT: &str = "\
begin read a > 1
kept > true
hear grant n1 c1 1 read a > Counted
hear grant n1 c1 1 read a > Known
may > false
enter > false";

#[test]
fn repeated_grant(rt: HostRuntime) -> Outcome {
    plays(rt.alloc(), &(0, PLAIN, REPEATED_GRANT))
}

const RESTARTED_CLIENT: &str = "\
say n1 > release n1 c1 1
begin write a > 2
kept > true
hear grant n1 c1 1 read a > NotMine
hear grant n2 c1 1 read a > NotMine
hear grant n3 c1 1 read a > NotMine
may > false";

#[test]
fn restarted_client(rt: HostRuntime) -> Outcome {
    plays(rt.alloc(), &(1, PLAIN, RESTARTED_CLIENT))
}

const SPENT: &str = "\
begin read a > 702
begin read a 2 > 702
phase > Idle
attempt > 1000000000000";

const LAST: &str = "\
begin read a > 1000000000000
begin read a > 701";

const GIVES_UP: &str = "\
begin read a > 1
kept > true
hear grant n1 c1 1 read a > Counted
leave > true
phase > Idle
begin write a > 2";

// A node that was skipped is not asked again; its Grant counts all the same.
const NEXT_NODE: &str = "\
begin read a > 1
skip n1 > \nkept > true
next > n1
skip n1 > \nnext > n2
hear grant n2 c1 1 read a > Counted
next > n3
skip n3 > \nnext > nothing
may > false
hear grant n1 c1 1 read a > Counted
may > true";

// By the first ballot the votes of nodes 1 and 2 are enough for a writer, by the second they aren't even for
// a reader. The first has three nodes and the second four; a release goes to every node of the list.
const BY_EITHER_BALLOT: &str = "\
begin write a 0 > 703
begin write a 3 > 703
attempt > 0
begin write a > 1
kept > true
hear grant n1 c1 1 write a > Counted
may > false
hear grant n2 c1 1 write a > Counted
may > true
enter > true
begin write a 3 > 701
leave > true
say n3 > release n3 c1 1
say n4 > release n4 c1 1
say n5 > nothing
begin read a 2 > 2
kept > true
say n4 > request n4 c1 2 read a
hear grant n1 c1 2 read a > Counted
hear grant n2 c1 2 read a > Counted
may > false
next > n3
skip n3 > \nnext > n4
hear grant n4 c1 2 read a > Counted
may > true";

#[test]
fn attempts_by_either_ballot(rt: HostRuntime) -> Outcome {
    plays(rt.alloc(), &(0, TWO_BALLOTS, BY_EITHER_BALLOT))
}

// A writer that is inside softens. From then on it says so to every node, asked or not, and hears no vote
// more, late or new; once it has left it says the release.
const SOFTENS: &str = "\
may_soften > false
begin write a > 1
kept > true
hear grant n1 c1 1 write a > Counted
hear grant n2 c1 1 write a > Counted
may_soften > false
soften > false
enter > true
ticket > c1 1 write a
say n3 > request n3 c1 1 write a
hear softened n1 c1 1 > NotMine
may_soften > true
soften > true
phase > Inside
attempt > 1
ticket > c1 1 read a
may > false
next > nothing
say n1 > soften n1 c1 1
say n3 > soften n3 c1 1
say n4 > nothing
hear softened n1 c1 1 > Softened
hear softened n1 c1 1 > Softened
hear softened n3 c1 1 > Softened
hear softened n4 c1 1 > NotMine
hear softened n1 c2 1 > NotMine
hear softened n1 c1 2 > NotMine
hear grant n3 c1 1 write a > NotMine
hear grant n1 c1 1 write a > NotMine
hear grant n3 c1 1 read a > NotMine
hear busy n3 c1 1 write a > NotMine
may_soften > false
soften > false
begin read b > 701
ticket > c1 1 read a
leave > true
phase > Idle
ticket > nothing
may_soften > false
say n1 > release n1 c1 1
say n3 > release n3 c1 1
hear softened n1 c1 1 > NotMine
hear done n1 c1 1 > Done
begin write a > 2
ticket > c1 2 write a";

// A reader has nothing to soften.
const READS: &str = "\
begin read a > 1
kept > true
hear grant n1 c1 1 read a > Counted
hear grant n2 c1 1 read a > Counted
enter > true
may_soften > false
soften > false
say n1 > request n1 c1 1 read a
hear softened n1 c1 1 > NotMine
hear grant n3 c1 1 read a > Counted
leave > true
say n1 > release n1 c1 1";

// The votes of n1 are enough for a writer and not for a reader. One that softens stays inside by them.
const STAYS_BY_FEWER_VOTES: &str = "\
begin write a > 1
kept > true
hear grant n1 c1 1 write a > Counted
enter > true
soften > true
phase > Inside
ticket > c1 1 read a
may > false
hear softened n1 c1 1 > Softened
hear grant n2 c1 1 write a > NotMine
phase > Inside
leave > true
begin read a > 2
kept > true
hear grant n1 c1 2 read a > Counted
may > false
hear grant n2 c1 2 read a > Counted
may > true";

const SOFTENED_ATTEMPTS_SCRIPTS: [Script; 3] = [
    (0, PLAIN, SOFTENS),
    (0, PLAIN, READS),
    (0, COSTLY_READS, STAYS_BY_FEWER_VOTES),
];

#[test]
fn softened_attempts(rt: HostRuntime) -> Outcome {
    plays_all(rt.alloc(), &SOFTENED_ATTEMPTS_SCRIPTS)
}

const ATTEMPTS_TO_THEIR_END_SCRIPTS: [Script; 5] = [
    (0, PLAIN, GIVES_UP),
    (1_000_000_000_000, PLAIN, SPENT),
    (999_999_999_999, PLAIN, LAST),
    (0, WEIGHTED, NEXT_NODE),
    (0, PLAIN, NEXT_NODE),
];

#[test]
fn attempts_to_their_end(rt: HostRuntime) -> Outcome {
    plays_all(rt.alloc(), &ATTEMPTS_TO_THEIR_END_SCRIPTS)
}

// To the inside as a writer, in attempt 2, with the votes of nodes 1 and 2; and softened there.
const TO_THE_INSIDE: &str = "\
begin write a > 2
kept > true
hear grant n1 c1 2 write a > Counted
hear grant n2 c1 2 write a > Counted
enter > true
soften > true";

/// Takes client 1 so many rows to the inside.
fn goes_inside(alloc: Global, core: &mut ClientCore, rows: usize) -> Option<bool> {
    let mut right = Some(true);
    for (place, row) in TO_THE_INSIDE.lines().enumerate() {
        if place < rows {
            right = both(right, goes(alloc, core, row));
        }
    }
    right
}

/// Whether a call has the answer after so many rows. Only a vote that counts changes the client.
fn is_answered(
    alloc: Global,
    core: &mut ClientCore,
    rows: usize,
    call: &str,
    want: &str,
) -> Option<bool> {
    let inside = goes_inside(alloc, core, rows);
    let before = core.copy();
    let right = has_answer(alloc, core, call, want);
    let same = *core == before;
    all(&[inside, right, Some(same == (want != "Counted"))])
}

/// The same of client 1 after attempt 1.
fn is_heard(alloc: Global, rows: usize, call: &str, want: &str) -> Option<bool> {
    match risen(1, PLAIN) {
        Some(core) => {
            let mut core = core;
            is_answered(alloc, &mut core, rows, call, want)
        }
        None => None,
    }
}

/// How many rows lead to the phases Idle, Chosen, Asking and Inside, and inside once it is softened.
const PHASES: [usize; 5] = [0, 1, 4, 5, 6];

/// Whether the call of a row has the row's answer in each of these phases.
pub(crate) fn in_each_phase(alloc: Global, row: &str) -> Option<bool> {
    let (call, wants) = row.split_once(" > ").unwrap_or((row, ""));
    let mut wants = wants.split(' ');
    let mut right = Some(true);
    for rows in &PHASES {
        let want = wants.next().unwrap_or("");
        right = both(right, is_heard(alloc, *rows, call, want));
    }
    both(right, Some(wants.next().is_none()))
}

// A call, and its answers in these phases.
const HEARD: &str = "\
hear grant n3 c1 2 write a > NotMine NotMine Counted Counted NotMine
hear grant n1 c1 2 write a > NotMine NotMine Known Known NotMine
hear grant n4 c1 2 write a > NotMine NotMine NotMine NotMine NotMine
hear grant n3 c2 2 write a > NotMine NotMine NotMine NotMine NotMine
hear grant n3 c1 1 write a > NotMine NotMine NotMine NotMine NotMine
hear grant n3 c1 2 read a > NotMine NotMine NotMine NotMine NotMine
hear grant n3 c1 2 write b > NotMine NotMine NotMine NotMine NotMine
hear busy n1 c1 2 write a > NotMine NotMine Busy Busy NotMine
hear busy n1 c1 2 read a > NotMine NotMine NotMine NotMine NotMine
hear busy n4 c1 2 write a > NotMine NotMine NotMine NotMine NotMine
hear busy n1 c2 2 write a > NotMine NotMine NotMine NotMine NotMine
hear busy n1 c1 1 write a > NotMine NotMine NotMine NotMine NotMine
hear request n3 c1 2 write a > NotMine NotMine NotMine NotMine NotMine
hear release n3 c1 2 > NotMine NotMine NotMine NotMine NotMine
hear release n3 c1 1 > NotMine NotMine NotMine NotMine NotMine
hear over n3 c1 2 > NotMine NotMine NotMine NotMine NotMine
hear over n3 c1 1 > NotMine NotMine NotMine NotMine NotMine
hear done n1 c1 1 > Done NotMine NotMine NotMine NotMine
hear done n1 c1 2 > NotMine NotMine NotMine NotMine NotMine
hear done n4 c1 1 > NotMine NotMine NotMine NotMine NotMine
hear done n1 c2 1 > NotMine NotMine NotMine NotMine NotMine
hear muddled n3 c1 2 > NotMine NotMine NotMine NotMine NotMine
hear muddled n3 c1 1 > NotMine NotMine NotMine NotMine NotMine
hear soften n3 c1 2 > NotMine NotMine NotMine NotMine NotMine
hear soften n3 c1 1 > NotMine NotMine NotMine NotMine NotMine
hear softened n1 c1 2 > NotMine NotMine NotMine NotMine Softened
hear softened n3 c1 2 > NotMine NotMine NotMine NotMine Softened
hear softened n4 c1 2 > NotMine NotMine NotMine NotMine NotMine
hear softened n1 c2 2 > NotMine NotMine NotMine NotMine NotMine
hear softened n1 c1 1 > NotMine NotMine NotMine NotMine NotMine
hear softened n1 c1 3 > NotMine NotMine NotMine NotMine NotMine
phase > Idle Chosen Asking Inside Inside
attempt > 1 2 2 2 2
may_soften > false false false true false";

/// Whether an attempt that is under way refuses another one (701), and stays as it is.
fn refuses(alloc: Global, rows: usize) -> Option<bool> {
    is_heard(alloc, rows, "begin write b", "701")
}

#[test]
fn every_message_in_every_phase(rt: HostRuntime) -> Outcome {
    let heard = each(rt.alloc(), Table::Heard, HEARD);
    let refused = check_answers(&[
        refuses(rt.alloc(), 1),
        refuses(rt.alloc(), 4),
        refuses(rt.alloc(), 5),
        refuses(rt.alloc(), 6),
    ]);
    heard.and(refused)
}

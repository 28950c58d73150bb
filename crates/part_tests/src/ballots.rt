//! Weighted votes, refused ballots, sets of nodes, and the node that two quorums share.

use lock_messages::{Mode, NodeId};
use test_outcomes::{Outcome, check_row};
use vote_weights::{Ballot, BallotFault, BallotList, NodeSet};

/// The set of these nodes, each put in by its number.
fn set_of(nodes: &[u8]) -> NodeSet {
    let mut set = NodeSet::empty();
    for number in nodes {
        if let Some(node) = NodeId::of(*number) {
            set = set.with(node);
        }
    }
    set
}

/// Nodes, their votes, and whether these are enough for a reader and for a writer.
type Weighed = (&'static [u8], u16, bool, bool);

// Under votes of 3, 1, 1 and 0, of which a reader needs 2 and a writer 4.
const WEIGHTED_VOTES: [Weighed; 9] = [
    (&[], 0, false, false),
    (&[2, 4], 1, false, false),
    (&[4], 0, false, false),
    (&[2, 3], 2, true, false),
    (&[1], 3, true, false),
    (&[1, 2], 4, true, true),
    (&[1, 2, 3, 4], 5, true, true),
    (&[9], 0, false, false),
    (&[9, 1, 16, 1, 5], 3, true, false),
];

fn weighs(row: &Weighed) -> bool {
    let Ok(ballot) = Ballot::of(&[3, 1, 1, 0], 2, 4) else {
        return false;
    };
    let set = set_of(row.0);
    ballot.votes_in(set) == row.1
        && ballot.enough(Mode::Read, set) == row.2
        && ballot.enough(Mode::Write, set) == row.3
}

#[test]
fn weighted_votes() -> Outcome {
    for (number, row) in WEIGHTED_VOTES.iter().enumerate() {
        check_row(weighs(row), number)?;
    }
    Ok(())
}

/// Votes, and what a reader and a writer need of them.
type Weights = (&'static [u8], u16, u16);

// With the number of the fault.
const REFUSED_BALLOTS: [(Weights, u16); 18] = [
    ((&[1, 1], 1, 1), 204),
    ((&[2, 2], 4, 2), 205),
    ((&[], 0, 0), 201),
    ((&[0], 0, 0), 204),
    ((&[1], 2, 1), 203),
    ((&[1; 17], 9, 9), 202),
    ((&[1; 17], 18, 9), 202),
    ((&[], 5, 5), 201),
    ((&[1, 1], 3, 1), 203),
    ((&[1, 1], 0, 0), 204),
    ((&[1, 1], 3, 2), 203),
    ((&[1, 1], 1, 3), 203),
    ((&[255], 65535, 1), 203),
    ((&[255], 1, 65535), 203),
    ((&[3, 1, 1, 0], 1, 4), 204),
    ((&[1, 1, 1], 3, 1), 205),
    ((&[255; 16], 2040, 2040), 204),
    ((&[255; 16], 2041, 2040), 205),
];

fn is_refused(weights: Weights, number: u16) -> bool {
    match Ballot::of(weights.0, weights.1, weights.2) {
        Ok(_) => false,
        Err(fault) => fault.number() == number,
    }
}

fn are_refused() -> Outcome {
    for (number, row) in REFUSED_BALLOTS.iter().enumerate() {
        check_row(is_refused(row.0, row.1), number)?;
    }
    Ok(())
}

// At the edges of what is refused, with the nodes and the total.
const BALLOTS: [(Weights, u8, u16); 8] = [
    ((&[3, 1, 1, 0], 2, 4), 4, 5),
    ((&[1], 1, 1), 1, 1),
    ((&[1; 16], 8, 9), 16, 16),
    ((&[1, 1], 2, 2), 2, 2),
    ((&[1, 1], 1, 2), 2, 2),
    ((&[1, 1, 1], 2, 2), 3, 3),
    ((&[255; 16], 2040, 2041), 16, 4080),
    ((&[255; 16], 4080, 2041), 16, 4080),
];

fn is_ballot(weights: Weights, nodes: u8, total: u16) -> bool {
    match Ballot::of(weights.0, weights.1, weights.2) {
        Ok(ballot) => {
            ballot.nodes() == nodes
                && ballot.total() == total
                && ballot.read() == weights.1
                && ballot.write() == weights.2
        }
        Err(_) => false,
    }
}

#[test]
fn refused_ballots() -> Outcome {
    for (number, row) in BALLOTS.iter().enumerate() {
        check_row(is_ballot(row.0, row.1, row.2), number)?;
    }
    are_refused()
}

// A set, and the same set written otherwise.
const SETS: [(&[u8], &[u8]); 6] = [
    (&[], &[]),
    (&[1], &[1, 1]),
    (&[16], &[16, 16, 16]),
    (&[1, 2], &[2, 1]),
    (&[16, 1, 8], &[8, 16, 1, 8]),
    (
        &[1, 2, 3, 4, 5, 6, 7, 8, 9, 10, 11, 12, 13, 14, 15, 16],
        &[16, 15, 14, 13, 12, 11, 10, 9, 8, 7, 6, 5, 4, 3, 2, 1],
    ),
];

fn has(set: NodeSet, number: u8) -> bool {
    match NodeId::of(number) {
        Some(node) => set.has(node),
        None => false,
    }
}

/// Whether a set has the nodes that it was made of and no others, and is the same set.
fn has_just(nodes: &[u8], others: &[u8]) -> bool {
    let set = set_of(nodes);
    let mut right = set == set_of(others);
    for number in 1..=16u8 {
        right &= has(set, number) == nodes.contains(&number);
    }
    right
}

fn have_just() -> Outcome {
    for (number, row) in SETS.iter().enumerate() {
        check_row(has_just(row.0, row.1), number)?;
    }
    Ok(())
}

/// A ballot, a set that is enough for a writer, one that is enough for the mode, and the lowest node
/// with votes in both.
type Shared = (Weights, &'static [u8], &'static [u8], Mode, u8);

const SHARED_NODES: [Shared; 6] = [
    ((&[3, 1, 1, 0], 2, 4), &[1, 2], &[1], Mode::Read, 1),
    ((&[3, 1, 1, 0], 2, 4), &[1, 2], &[2, 3], Mode::Read, 2),
    ((&[1, 1, 1], 2, 2), &[1, 3], &[2, 3], Mode::Write, 3),
    ((&[1, 1, 1], 2, 2), &[1, 2, 3], &[2, 3], Mode::Read, 2),
    ((&[0, 1, 1], 2, 2), &[1, 2, 3], &[1, 2, 3], Mode::Write, 2),
    ((&[1, 1, 1], 2, 2), &[9, 2, 3], &[9, 2, 3], Mode::Read, 2),
];

fn shares(row: &Shared) -> bool {
    let (weights, mode) = (row.0, row.3);
    let (writers, others) = (set_of(row.1), set_of(row.2));
    match Ballot::of(weights.0, weights.1, weights.2) {
        Ok(ballot) => {
            ballot.enough(Mode::Write, writers)
                && ballot.enough(mode, others)
                && ballot.shared_node(writers, others, mode).get() == row.4
        }
        Err(_) => false,
    }
}

#[test]
fn sets_of_nodes() -> Outcome {
    for (number, row) in SHARED_NODES.iter().enumerate() {
        check_row(shares(row), number)?;
    }
    have_just()
}

/// Two ballots, and whether they cross.
type Pair = (Weights, Weights, bool);

// Those that don't cross are refused with their places, 1 and 2.
const PAIRS: [Pair; 3] = [
    ((&[1, 1, 1], 2, 2), (&[1, 1, 1], 1, 3), false),
    ((&[2, 1, 1], 2, 3), (&[1, 1, 1], 2, 2), false),
    ((&[2, 1, 1], 2, 3), (&[1, 1, 1], 2, 3), true),
];

/// The list of two ballots, if each is one.
fn list_of(one: Weights, other: Weights) -> Option<Result<BallotList, BallotFault>> {
    let one = Ballot::of(one.0, one.1, one.2).ok()?;
    let other = Ballot::of(other.0, other.1, other.2).ok()?;
    Some(BallotList::of(&[one, other]))
}

fn is_told(pair: &Pair) -> bool {
    match list_of(pair.0, pair.1) {
        Some(Ok(list)) => pair.2 && list.count() == 2,
        Some(Err(BallotFault::BallotsMiss(1, 2))) => !pair.2,
        _ => false,
    }
}

/// Whether who writes by the first ballot and who reads by the second share node 2, where both ballots have
/// votes.
fn list_shares() -> bool {
    let Some(Ok(list)) = list_of(PAIRS[2].0, PAIRS[2].1) else {
        return false;
    };
    let (Some(first), Some(second)) = (list.ballot(1), list.ballot(2)) else {
        return false;
    };
    let (writers, readers) = (set_of(&[1, 2]), set_of(&[2, 3]));
    first.enough(Mode::Write, writers)
        && second.enough(Mode::Read, readers)
        && list.shared_node(1, 2, writers, readers, Mode::Read).get() == 2
}

#[test]
fn ballots_that_cross() -> Outcome {
    for (number, pair) in PAIRS.iter().enumerate() {
        check_row(is_told(pair), number)?;
    }
    check_row(list_shares(), PAIRS.len())
}

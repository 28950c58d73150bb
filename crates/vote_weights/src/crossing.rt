// Which ballots cross with each other.

ghost use Rattle.std.specs.Prelude.{◌≡◌, ℕ, ◌+◌, ◌*◌, ◌≤◌, length, slice_index};
ghost use Rattle.lock_model.specs.Ballots.{larger_votes};
ghost use Rattle.vote_weights.specs.ListFaults.{are_crossing, missed_by, first_missed};

use crate::Ballot;
use crate::lists::MAX_BALLOTS;
use lock_messages::MAX_NODES;

/// The votes at an index, 0 behind the last.
pub(crate) fn votes_at(votes: &[u8], i: usize) -> u8
    ensures { result ≡ slice_index votes.now i }
{
    votes.get(i).copied().unwrap_or(0)
}

/// The sum, over all nodes, of the larger of a node's votes in the two ballots.
fn larger_votes(first: &Ballot, second: &Ballot) -> u16
    ensures larger { result ≡ larger_votes first.now second.now }
    ensures in_range { result ≤ 255 * MAX_NODES }
{
    let (left, right) = (first.votes(), second.votes());
    let mut sum = 0;
    for i in 0..left.len().max(right.len()) {
        sum += u16::from(votes_at(left, i).max(votes_at(right, i)));
    }
    sum
}

/// Whether the two ballots cross.
fn are_crossing(first: &Ballot, second: &Ballot) -> bool
    ensures { result ≡ are_crossing first.now second.now }
{
    let larger = larger_votes(first, second);
    larger < first.read() + second.write()
        && larger < first.write() + second.read()
        && larger < first.write() + second.write()
}

/// The place of the first of the others that doesn't cross with the ballot, where the others stand at this
/// place and behind it.
fn missed_by(ballot: &Ballot, place: u8, others: &[Ballot]) -> Option<u8>
    requires { place + length others.now ≤ 255 }
    ensures { result ≡ missed_by ballot.now place others.now }
{
    for (i, other) in others.iter().enumerate() {
        if !are_crossing(ballot, other) {
            return Some(place + i as u8);
        }
    }
    None
}

/// The places of the first two ballots that don't cross, the lower one first.
pub(crate) fn first_missed(ballots: &[Ballot]) -> Option<(u8, u8)>
    requires { length ballots.now ≤ MAX_BALLOTS }
    ensures { result ≡ first_missed 1 ballots.now }
{
    for (i, ballot) in ballots.iter().enumerate() {
        let place = i as u8 + 1;
        if let Some(higher) = missed_by(ballot, place + 1, &ballots[i + 1..]) {
            return Some((place, higher));
        }
    }
    None
}

//! Laws of the worlds that a run reaches. Each function computes nothing: its contract is a theorem.

ghost use Rattle.std.specs.Prelude.{◌≡◌};
ghost use Rattle.world_laws.specs.Loads.{LoadIsBounded, MaxLoadIsEnough, LongListsHaveRoom};
ghost use Rattle.world_laws.specs.MildWays.{WaysInAreMild};
ghost use Rattle.world_laws.specs.Reaching.{OpeningsAreReachable, StepsReachOn, RunsReachOn, TheoremsSpeak, WritersAreAloneThere, NobodyIsLockedOutThere};

use crate::MAX_LOAD;
use world_model::laws::{
    exact_steps_are_allowed, nobody_is_locked_out, openings_are_lawful, steps_change_one_part,
    writers_are_alone,
};

/// A world is reachable if steps lead to it from a world that is resumed from lawful records. Each opening is
/// reachable, and what `World::step` and `World::run` do in a reachable world leaves one, whatever they return.
/// The theorems speak of every such world: it is sound, a run from a lawful opening reaches it, and its ballots
/// intersect. So a writer inside is alone there, and each client with an attempt left has a way in.
pub fn theorems_speak_of_reachable_worlds()
    ensures openings { OpeningsAreReachable }
    ensures steps { StepsReachOn }
    ensures runs { RunsReachOn }
    ensures both { TheoremsSpeak }
    ensures alone { WritersAreAloneThere }
    ensures way { NobodyIsLockedOutThere }
{
    exact_steps_are_allowed();
    openings_are_lawful();
    writers_are_alone();
    nobody_is_locked_out();
}

/// In each reachable world a way in says at most 3 messages, and 4 for each client, at each node. With the greatest
/// numbers of both that is `MAX_LOAD`, 65,584. So as long as the list of messages has room for that many more, it has
/// room for each way in.
pub fn load_is_bounded()
    ensures each { LoadIsBounded }
    ensures most { MaxLoadIsEnough }
    ensures room { LongListsHaveRoom }
    ensures number { MAX_LOAD ≡ 65584 }
{
    exact_steps_are_allowed();
    steps_change_one_part();
    openings_are_lawful();
}

/// There is a way in on which others are hardly disturbed, also where it takes all nodes: the client comes up, those
/// that are down rise with what they have kept, and from then on the others only finish, say what they have to say,
/// and leave. No other client begins, hears, enters or softens, and no other actor falls.
pub fn ways_in_are_mild()
    ensures { WaysInAreMild }
{}

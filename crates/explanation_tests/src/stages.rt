//! What is said of actors behind a longer path: one that has softened, one that counts by another ballot, one that is
//! told by the last of several messages, and a node that has switched.

use crate::hearing::{says, says_of_lines};
use test_outcomes::Outcome;
use world_settings::Command;

/// c1 enters as a writer by the votes of n1 and n2, and then softens.
const SOFTENED: &str = "\
begin c1 write a
try c1
kept c1
sayto c1 n1
sayto c1 n2
take n1 1
try n1
kept n1
say n1
hear c1 3
take n2 2
try n2
kept n2
say n2
hear c1 4
enter c1
enter c1
soften c1
soften c1
";

const SOFTENED_WORDS: &str = "\
input line 23: refused 604: wrong phase: c1 is inside as a writer (enter c1)
input line 25: refused 604: wrong phase: c1 is inside, and has softened (soften c1)
";

#[test]
fn a_client_that_has_softened(rt: HostRuntime) -> Outcome {
    says_of_lines(rt.alloc(), 0, Command::Script, SOFTENED, SOFTENED_WORDS)
}

/// By the second ballot n1 has two votes, and a writer needs three.
const SECOND_BALLOT: &str = "\
votes = [1, 1, 1]
read = 2
write = 2
problem = 1
clients = 4
more = [{ votes = [2, 1, 1], read = 3, write = 3 }]
---
begin c1 write a b2
try c1
kept c1
sayto c1 n1
take n1 1
try n1
kept n1
say n1
hear c1 2
enter c1
begin c2 write a b3
";

const SECOND_BALLOT_WORDS: &str = "\
input line 17: refused 609: not enough votes: has 2, needs 3 (enter c1)
input line 18: refused 614: no ballot at this place: the last one is at place 2 (begin c2 write a b3)
";

#[test]
fn votes_by_the_second_ballot(rt: HostRuntime) -> Outcome {
    says(
        rt.alloc(),
        0,
        Command::Script,
        SECOND_BALLOT,
        SECOND_BALLOT_WORDS,
    )
}

/// c2 and c3 wait behind c1 for the vote of n1, which says three messages once c1 has left: 8, 9 and 10.
const SEVERAL: &str = "\
begin c1 write a
try c1
kept c1
sayto c1 n1
take n1 1
try n1
kept n1
say n1
begin c2 read a
try c2
kept c2
sayto c2 n1
take n1 3
try n1
kept n1
say n1
begin c3 read a
try c3
kept c3
sayto c3 n1
take n1 5
try n1
kept n1
say n1
leave c1
sayto c1 n1
take n1 7
try n1
kept n1
say n1
hear c1 11
hear c1 10
";

const SEVERAL_WORDS: &str = "\
input line 37: refused 607: no such message: the last one has the number 10 (hear c1 11)
input line 38: refused 608: the message is for another actor: message 10 is grant n1 c3 1 read a (hear c1 10)
";

#[test]
fn several_messages_that_are_said_at_once(rt: HostRuntime) -> Outcome {
    says_of_lines(rt.alloc(), 0, Command::Script, SEVERAL, SEVERAL_WORDS)
}

/// n1 takes problem 2, which it has yet to keep; n2 takes the problem that it has, and may say so at once.
const SWITCHED: &str = "\
switch n1 2
switch n1 1
try n1
switch n1 1
kept n1
switch n1 1
say n1
try n1
switch n2 1
switch n2 2
say n2
try n2
";

const SWITCHED_WORDS: &str = "\
input line 8: refused 604: wrong phase: n1 has not tried its decision yet (switch n1 1)
input line 10: refused 604: wrong phase: n1 has not kept its decision yet (switch n1 1)
input line 12: refused 604: wrong phase: n1 has not said its replies yet (switch n1 1)
input line 14: refused 604: wrong phase: n1 is idle (try n1)
input line 16: refused 604: wrong phase: n2 has not said its replies yet (switch n2 2)
input line 18: refused 604: wrong phase: n2 is idle (try n2)
";

#[test]
fn a_node_that_has_switched(rt: HostRuntime) -> Outcome {
    says_of_lines(rt.alloc(), 0, Command::Script, SWITCHED, SWITCHED_WORDS)
}

/// Two keys that aren't known, of which the one is named that comes first by its letters.
const TWO_KEYS: &str = "\
votes = [1, 1, 1]
zeal = 1
read = 2
write = 2
problem = 1
apple = 2
clients = 4
---
";

const TWO_KEYS_WORDS: &str = "\
settings fault 923: unknown key: \"apple\"
";

#[test]
fn two_keys_that_are_not_known(rt: HostRuntime) -> Outcome {
    says(rt.alloc(), 0, Command::Script, TWO_KEYS, TWO_KEYS_WORDS)
}

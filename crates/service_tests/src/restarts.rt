// Actors that fall and rise, and messages that come late, by the world's own calls.

use crate::worlds::{ASKS, ASKS_ANOTHER, CHOOSES, RISE, plays};
use test_outcomes::Outcome;

const DECIDES: &str = "\
begin c1 read a > chose 1
try c1 > tried
kept c1 > kept
sayto c1 n1 > sent 1 request n1 c1 1 read a
take n1 1 > changed by request n1 c1 1 read a
try n1 > tried";

const GRANTS_AGAIN: &str = "\
take n1 1 > same after request n1 c1 1 read a
say n1 > said 2 1";

const AFTER_KEEPING: &str = "kept n1 > kept\nfall n1 > down\nrise n1 old > up";

#[test]
fn restart_with_old_record(rt: HostRuntime) -> Outcome {
    plays(rt.alloc(), &[RISE, DECIDES, AFTER_KEEPING, GRANTS_AGAIN])
}

const WITH_WHAT_WAS_TRIED: &str = "fall n1 > down\nrise n1 new > up";

#[test]
fn restart_with_new_record(rt: HostRuntime) -> Outcome {
    plays(
        rt.alloc(),
        &[RISE, DECIDES, WITH_WHAT_WAS_TRIED, GRANTS_AGAIN],
    )
}

const DOWN_AND_UP: &str = "\
rise n1 old > refused 603
fall n1 > down
fall n1 > refused 602
take n1 1 > refused 602
rise n1 new > refused 611
rise n1 old > up
rise n1 new > refused 603
fall c1 > down
begin c1 read a > refused 602
soften c1 > refused 602
sayto c1 n1 > refused 602
rise c1 new > refused 611
rise c1 old > up
begin c1 read a > chose 1
try c1 > tried
fall c1 > down
rise c1 new > up
begin c1 read a > chose 2";

#[test]
fn refused_rises(rt: HostRuntime) -> Outcome {
    plays(rt.alloc(), &[RISE, DOWN_AND_UP])
}

const CLIENT_RESTARTS: &str = "\
fall c1 > down
rise c1 old > up
begin c1 write a > chose 2
try c1 > tried
kept c1 > kept
hear c1 2 > NotMine grant n1 c1 1 read a
enter c1 > refused 609";

#[test]
fn restarted_client(rt: HostRuntime) -> Outcome {
    plays(
        rt.alloc(),
        &[RISE, CHOOSES, ASKS, ASKS_ANOTHER, CLIENT_RESTARTS],
    )
}

const LATE_REQUEST: &str = "\
leave c1 > outside
sayto c1 n1 > sent 5 release n1 c1 1
take n1 5 > changed by release n1 c1 1
try n1 > tried
kept n1 > kept
say n1 > said 6 1
take n1 1 > same after request n1 c1 1 read a
say n1 > said 7 1
hear c1 6 > Done done n1 c1 1
hear c1 7 > NotMine over n1 c1 1
sent 8 > nothing";

#[test]
fn release_then_late_request(rt: HostRuntime) -> Outcome {
    plays(
        rt.alloc(),
        &[RISE, CHOOSES, ASKS, ASKS_ANOTHER, LATE_REQUEST],
    )
}

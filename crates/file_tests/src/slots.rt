//! Records of two slots on files: each call of the file fails in turn.

use crate::homes::TwoSlots;
use crate::media::Fault;
use crate::stops::{Row, formats_stop, keeps_stop, reopens_stop};
use test_outcomes::Outcome;

// What is found if the first call failed, the second, and so on. The last one is for no failure. The plate makes
// 2 calls, a formatting 7, an opening 4 and a keep 6.

const FORMAT_REFUSED: Row = (Fault::Refused, b"--------FF");

const FORMAT_SHORT: Row = (Fault::Short, b"--------FF");

const FORMAT_TORN: Row = (Fault::Torn, b"-------FFF");

const KEEP_REFUSED: Row = (Fault::Refused, b"AAAAAAAAAAABB");

const KEEP_SHORT: Row = (Fault::Short, b"AAAAAAAAAAABB");

const KEEP_TORN: Row = (Fault::Torn, b"AAAAAAAAAABBB");

const KEEP_WRONG: Row = (Fault::Wrong, b"AAAAAAAAAAABB");

#[test]
fn a_refused_call_ends_a_formatting(rt: HostRuntime) -> Outcome {
    formats_stop::<TwoSlots>(&rt, "two_format_refused", FORMAT_REFUSED)
}

#[test]
fn a_short_write_ends_a_formatting(rt: HostRuntime) -> Outcome {
    formats_stop::<TwoSlots>(&rt, "two_format_short", FORMAT_SHORT)
}

#[test]
fn a_torn_call_ends_a_formatting(rt: HostRuntime) -> Outcome {
    formats_stop::<TwoSlots>(&rt, "two_format_torn", FORMAT_TORN)
}

#[test]
fn a_refused_call_ends_a_keep(rt: HostRuntime) -> Outcome {
    keeps_stop::<TwoSlots>(&rt, "two_keep_refused", KEEP_REFUSED)
}

#[test]
fn a_short_write_ends_a_keep(rt: HostRuntime) -> Outcome {
    keeps_stop::<TwoSlots>(&rt, "two_keep_short", KEEP_SHORT)
}

#[test]
fn a_torn_call_ends_a_keep(rt: HostRuntime) -> Outcome {
    keeps_stop::<TwoSlots>(&rt, "two_keep_torn", KEEP_TORN)
}

#[test]
fn a_wrong_read_ends_a_keep(rt: HostRuntime) -> Outcome {
    keeps_stop::<TwoSlots>(&rt, "two_keep_wrong", KEEP_WRONG)
}

#[test]
fn a_refused_call_ends_a_reopening(rt: HostRuntime) -> Outcome {
    reopens_stop::<TwoSlots>(&rt, "two_reopen_refused", Fault::Refused, (6, 10))
}

#[test]
fn a_wrong_read_ends_a_reopening(rt: HostRuntime) -> Outcome {
    reopens_stop::<TwoSlots>(&rt, "two_reopen_wrong", Fault::Wrong, (6, 10))
}

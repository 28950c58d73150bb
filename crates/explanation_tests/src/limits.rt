// What is said at limits that no short input reaches.

use crate::hearing::says_of_lines;
use test_outcomes::Outcome;
use world_settings::Command;

/// How often a client asks in a row, and how many such rows fill the list of messages.
const ROW: usize = 4_096;

const ROWS: u32 = 256;

const FULL_WORDS: &str =
    "input line 1048586: refused 612: the list of messages is full (sayto c1 n1)\n";

/// The list takes 1,048,576 messages, and the next one is refused.
#[test]
fn full_list(rt: HostRuntime) -> Outcome {
    let mut asks = String::new(rt.alloc());
    for _ in 0..ROW {
        asks.push_str("sayto c1 n1\n")?;
    }
    let mut lines = String::from_str(rt.alloc(), "begin c1 read a\ntry c1\nkept c1\n")?;
    for _ in 0..ROWS {
        lines.push_str(asks.as_str())?;
    }
    lines.push_str("sayto c1 n1\n")?;
    says_of_lines(rt.alloc(), 0, Command::Script, lines.as_str(), FULL_WORDS)
}

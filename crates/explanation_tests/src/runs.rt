// What is said of a run: who entered what, who ended by a fault and in which wish, and which wishes were left.

ghost use Rattle.lock_messages.specs.Ids.{IsNode, IsClient};

use event_lines::{Wish, read_wish};
use event_recorders::RunFault;
use explanations::RunWords;
use lock_messages::Actor;
use std::alloc::Global;
use std::io::Write;
use test_outcomes::{Failure, Outcome, check_row, client_id, node_id};

/// What four clients wish.
const WISHES: [&str; 7] = [
    "c1 read a",
    "c2 soften b",
    "c1 write a",
    "c1 read a",
    "c2 write c b2",
    "c3 read a",
    "c1 write a",
];

fn wishes(alloc: Global) -> Result<Vec<Wish>, Failure> {
    let mut wishes = Vec::new(alloc);
    for text in WISHES {
        let Ok(wish) = read_wish(text.as_bytes()) else {
            return Err(Failure::Wrong(0));
        };
        wishes.push(wish)?;
    }
    Ok(wishes)
}

/// What is said of a run with this journal, in which these ended by faults.
fn heard(alloc: Global, journal: &str, faults: &[(Actor, RunFault)]) -> Result<String, Failure> {
    let mut words = RunWords::new(alloc, 4)?;
    for piece in journal.as_bytes().chunks(5) {
        let Ok(count) = words.write(piece) else {
            return Err(Failure::Memory);
        };
        check_row(count == piece.len(), 0)?;
    }
    let mut text = String::new(alloc);
    words.push(alloc, &mut text, wishes(alloc)?.as_slice(), faults)?;
    Ok(text)
}

const JOURNAL: &str =
    "rise c1 old\nbegin c1 read a\nenter c1\nleave c1\nenter c2\nsoften c2\nenter c1\nleave c1\nenter c1\nleave c1\n";

const WORDS: &str = "\
c1 entered 2 times: read a
c2 entered once: soften b
c1 entered once: write a
n1 fault 911: the record failed to reopen three times in a row
c1 fault 913: gave up after 1000 retries in wish 7 (write a)
c2 fault 914: out of memory or threads in wish 2 (soften b)
c3 fault 912: cannot get enough votes in wish 6 (read a)
c4 fault 916: the record's changes or the client's attempts are used up after its last wish
wish 5 was not done: c2 write c b2
wish 6 was not done: c3 read a
wish 7 was not done: c1 write a
";

fn client(number: u32) -> Actor
    requires { IsClient number }
{
    Actor::Client(client_id(number))
}

fn node(number: u8) -> Actor
    requires { IsNode number }
{
    Actor::Node(node_id(number))
}

#[test]
fn run_with_faults(rt: HostRuntime) -> Outcome {
    let faults = [
        (node(1), RunFault::NotReopened),
        (client(1), RunFault::GaveUp),
        (client(2), RunFault::Memory),
        (client(3), RunFault::TooFewNodes),
        (client(4), RunFault::Spent),
    ];
    let text = heard(rt.alloc(), JOURNAL, faults.as_slice())?;
    check_row(text.as_str() == WORDS, 0)
}

/// A client that left, or fell, is at its next wish.
#[test]
fn next_wish(rt: HostRuntime) -> Outcome {
    let faults = [(client(2), RunFault::Book)];
    let left = heard(rt.alloc(), "enter c2\nleave c2\n", faults.as_slice())?;
    let words = "c2 fault 915: the log or the list of messages is full in wish 5 (write c b2)\n";
    check_row(left.as_str().contains(words), 0)?;
    let fell = heard(rt.alloc(), "enter c2\nfall c2\n", faults.as_slice())?;
    check_row(fell.as_str() == left.as_str(), 1)
}

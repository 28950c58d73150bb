// The greatest sizes: 16 nodes with 4,080 votes, 1,024 clients inside, as many messages as there may
// be, and inputs of many reads.

use crate::playing::{plays, serve_script, serves_reader};
use operator_cli::ServeFault;
use std::alloc::{AllocError, Global};
use std::io;
use std::io::{Read, Write};
use test_outcomes::{Failure, Outcome, check};

/// What is played.
#[derive(Clone, Copy)]
enum Scene {
    AllVotes,
    AllPairs,
    AllClients,
}

/// Plays a scene behind this beginning of a script, which prints this, to an end with this status.
fn plays_scene(alloc: Global, begins: &str, prints: &str, scene: Scene, status: u8) -> Outcome {
    let mut script = String::new(alloc);
    let mut output = String::new(alloc);
    plan(&mut script, &mut output, scene)?;
    let printed = [prints, output.as_str()];
    plays(alloc, &[begins, script.as_str()], &printed, status)
}

fn plan(script: &mut String, output: &mut String, scene: Scene) -> Result<(), AllocError> {
    match scene {
        Scene::AllVotes => all_votes_are_given(script, output),
        Scene::AllPairs => all_pairs_switch(script, output),
        Scene::AllClients => all_clients_come_in(script, output),
    }
}

/// A part of a script, and what it prints. The letters `C`, `N`, `R` and `A` stand for the numbers of a client,
/// of a node, of a message and of the one behind that.
#[derive(Clone, Copy)]
struct Part {
    script: &'static str,
    output: &'static str,
}

/// What the letters of a part stand for.
#[derive(Clone, Copy)]
struct Numbers {
    client: u32,
    node: u32,
    request: u32,
}

fn number_of(letter: char, numbers: &Numbers) -> Option<u32> {
    match letter {
        'C' => Some(numbers.client),
        'N' => Some(numbers.node),
        'R' => Some(numbers.request),
        'A' => Some(numbers.request.saturating_add(1)),
        _ => None,
    }
}

/// Writes a part with its numbers.
fn fill(text: &mut String, part: &str, numbers: &Numbers) -> Result<(), AllocError> {
    for letter in part.chars() {
        let written = match number_of(letter, numbers) {
            Some(number) => write!(text, "{number}"),
            None => text.push(letter),
        };
        written?;
    }
    Ok(())
}

fn add(
    script: &mut String,
    output: &mut String,
    part: &Part,
    numbers: &Numbers,
) -> Result<(), AllocError> {
    fill(script, part.script, numbers)?;
    fill(output, part.output, numbers)
}

const CHOOSES: Part = Part {
    script: "begin cC read a\ntry cC\nkept cC\n",
    output: "chose 1\ntried\nkept\n",
};

/// The client asks a node, which grants its vote.
const ASKS: Part = Part {
    script: "sayto cC nN\ntake nN R\ntry nN\nkept nN\nsay nN\nhear cC A\n",
    output: "sent R request nN cC 1 read a\nchanged\ntried\nkept\nsent A grant nN cC 1 read a\ncounted\n",
};

const IS_REFUSED: Part = Part {
    script: "enter cC\n",
    output: "refused 609\n",
};

const ENTERS: Part = Part {
    script: "enter cC\n",
    output: "inside\n",
};

const IS_INSIDE: Part = Part {
    script: "inside a\n",
    output: "inside a: cC read",
};

const IS_INSIDE_TOO: Part = Part {
    script: "",
    output: ", cC read",
};

/// A reader needs eight of sixteen nodes that have 255 votes each.
const ALL_VOTES: &str = "\
votes = [255, 255, 255, 255, 255, 255, 255, 255, 255, 255, 255, 255, 255, 255, 255, 255]\n\
read = 2040\nwrite = 2041\nproblem = 1\nclients = 1024\n---\n";

fn all_votes_are_given(script: &mut String, output: &mut String) -> Result<(), AllocError> {
    let mut numbers = Numbers {
        client: 1024,
        node: 16,
        request: 15,
    };
    let last = numbers;
    add(script, output, &CHOOSES, &numbers)?;
    for node in 9..16u32 {
        numbers.node = node;
        numbers.request = node.saturating_mul(2).saturating_sub(17);
        add(script, output, &ASKS, &numbers)?;
    }
    add(script, output, &IS_REFUSED, &last)?;
    add(script, output, &ASKS, &last)?;
    add(script, output, &ENTERS, &last)?;
    add(script, output, &IS_INSIDE, &last)?;
    output.push_str("\n")
}

#[test]
fn all_votes(rt: HostRuntime) -> Outcome {
    plays_scene(rt.alloc(), ALL_VOTES, "", Scene::AllVotes, 1)
}

const ALL_PAIRS: &str = "\
votes = [1, 1, 1, 1, 1, 1, 1, 1, 1, 1, 1, 1, 1, 1, 1, 1]\n\
read = 8\nwrite = 9\nproblem = 2\nclients = 3\n---\n\
begin c1 read a\ntry c1\nkept c1\nbegin c2 write a\ntry c2\nkept c2\n\
begin c3 read a\ntry c3\nkept c3\n";

const ALL_CHOOSE: &str = "\
chose 1\ntried\nkept\nchose 1\ntried\nkept\nchose 1\ntried\nkept\n";

/// What is said to a node and by it.
const SAYS: &str = "sayto cC nN\ntake nN R\ntry nN\nkept nN\nsay nN\n";

const IS_GRANTED: Part = Part {
    script: SAYS,
    output: "sent R request nN cC 1 read a\nchanged\ntried\nkept\nsent A grant nN cC 1 read a\n",
};

const WRITER_WAITS: Part = Part {
    script: SAYS,
    output: "sent R request nN cC 1 write a\nchanged\ntried\nkept\nsent A busy nN cC 1 write a\n",
};

const READER_WAITS: Part = Part {
    script: SAYS,
    output: "sent R request nN cC 1 read a\nchanged\ntried\nkept\nsent A busy nN cC 1 read a\n",
};

/// The node takes problem 1, under which it grants the reader that waits.
const SWITCHES: Part = Part {
    script: "switch nN 1\ntry nN\nkept nN\nsay nN\n",
    output: "changed\ntried\nkept\nsent R grant nN cC 1 read a\n",
};

/// What happens at a node: whose turn it is, and the number of its message behind those of the nodes before.
const AT_A_NODE: [(Part, u32, u32); 4] = [
    (IS_GRANTED, 1, 1),
    (WRITER_WAITS, 2, 3),
    (READER_WAITS, 3, 5),
    (SWITCHES, 3, 7),
];

fn happens_at(script: &mut String, output: &mut String, node: u32) -> Result<(), AllocError> {
    let before = node.saturating_sub(1).saturating_mul(7);
    for (part, client, request) in &AT_A_NODE {
        let numbers = Numbers {
            client: *client,
            node,
            request: before.saturating_add(*request),
        };
        add(script, output, part, &numbers)?;
    }
    Ok(())
}

fn all_pairs_switch(script: &mut String, output: &mut String) -> Result<(), AllocError> {
    for node in 1..17u32 {
        happens_at(script, output, node)?;
    }
    Ok(())
}

/// Each of as many nodes as there may be has policies of both problems: a reader behind a writer waits under
/// problem 2, and is let in under problem 1.
#[test]
fn all_pairs(rt: HostRuntime) -> Outcome {
    plays_scene(rt.alloc(), ALL_PAIRS, ALL_CHOOSE, Scene::AllPairs, 0)
}

const ONE_VOTE: &str = "votes = [1]\nread = 1\nwrite = 1\nproblem = 1\nclients = 1024\n---\n";

/// The client begins, asks the one node and enters.
fn comes_in(script: &mut String, output: &mut String, client: u32) -> Result<(), AllocError> {
    let numbers = Numbers {
        client,
        node: 1,
        request: client.saturating_mul(2).saturating_sub(1),
    };
    add(script, output, &CHOOSES, &numbers)?;
    add(script, output, &ASKS, &numbers)?;
    add(script, output, &ENTERS, &numbers)
}

/// The numbers that a list of the clients inside has.
fn inside(client: u32) -> Numbers {
    Numbers {
        client,
        node: 1,
        request: 1,
    }
}

fn all_clients_come_in(script: &mut String, output: &mut String) -> Result<(), AllocError> {
    for client in 1..1025u32 {
        comes_in(script, output, client)?;
    }
    add(script, output, &IS_INSIDE, &inside(1))?;
    for client in 2..1025u32 {
        add(script, output, &IS_INSIDE_TOO, &inside(client))?;
    }
    output.push_str("\n")
}

/// As many clients as there may be are inside together.
#[test]
fn all_clients(rt: HostRuntime) -> Outcome {
    plays_scene(rt.alloc(), ONE_VOTE, "", Scene::AllClients, 0)
}

/// A reader that gives a beginning, and then the same line so many times, a line a read.
#[derive(Drop)]
struct Repeats<'a> {
    now: &'a [u8],
    line: &'a [u8],
    times: u32,
}

impl Read for Repeats<'_> {
    fn read(&mut self, buf: &mut [u8]) -> io::Result<usize> {
        if self.now.is_empty() && self.times > 0 {
            self.now = self.line;
            self.times -= 1;
        }
        let count = self.now.len().min(buf.len());
        let (now, later) = self.now.split_at(count);
        buf[..count].copy_from_slice(now);
        self.now = later;
        Ok(count)
    }
}

/// Runs the line so many times behind a client that asks.
fn reader_of(line: &[u8], times: u32) -> Repeats<'_> {
    let now = b"votes = [1]\nread = 1\nwrite = 1\nproblem = 1\nclients = 1\n---\n\
        begin c1 read a\ntry c1\nkept c1\n";
    Repeats { now, line, times }
}

/// An input of more than 2,000 reads.
#[test]
fn many_reads(rt: HostRuntime) -> Outcome {
    let mut out = Vec::new(rt.alloc());
    let reader = reader_of(b"inside a\n", 3_000);
    let status = serves_reader(rt.alloc(), reader, &mut out)?;
    let inside = b"inside a: nobody\n";
    let whole = out.len() == 19 + 3_000 * inside.len() && out.ends_with(inside);
    check(whole && status == 0)
}

/// A writer that counts lines, and keeps the last twelve bytes.
#[derive(Drop)]
struct Counts {
    lines: usize,
    last: [u8; 12],
}

impl Write for Counts {
    fn write(&mut self, buf: &[u8]) -> io::Result<usize> {
        let lines = buf.iter().filter(|byte| **byte == b'\n').count();
        self.lines = self.lines.saturating_add(lines);
        if let Some(last) = buf.last_chunk::<12>() {
            self.last = *last;
        }
        Ok(buf.len())
    }

    fn flush(&mut self) -> io::Result<()> {
        Ok(())
    }
}

/// The most messages of a world, by number: a constant of the code would follow whatever stands there.
const MESSAGES: u32 = 1_048_576;

/// A client says its request as often as there may be messages, and once more.
#[test]
fn all_messages(rt: HostRuntime) -> Outcome {
    let mut out = Counts {
        lines: 0,
        last: [0; 12],
    };
    let reader = reader_of(b"sayto c1 n1\n", MESSAGES + 1);
    let ended = serve_script(rt.alloc(), reader, &mut out);
    if ended == Err(ServeFault::Memory) || ended == Ok(2) {
        return Err(Failure::Memory);
    }
    let whole = out.lines == MESSAGES as usize + 4 && out.last == *b"refused 612\n";
    check(ended == Ok(1) && whole)
}

//! A directory as a carrier: when an inbox is emptied, and what opening it does.

use crate::places::{after, append, client, length, line_for_node, made, no_file, node, secret};
use line_link::{Carrier, Folder, MAX_INBOX_LEN, Taken, inbox_path};
use lock_messages::Actor;
use std::alloc::Global;
use std::fs::{self, OpenOptions};
use std::io::ErrorKind;
use test_outcomes::{Failure, Outcome, check_row, node_id};

/// How many lines can be taken now.
fn count<C: Carrier>(carrier: &mut C, line: &mut Vec<u8>) -> u64 {
    for count in 0..u32::MAX {
        if carrier.take(line) != Taken::Line {
            return u64::from(count);
        }
    }
    u64::from(u32::MAX)
}

/// An inbox is emptied only when it is long and all of it is read; then the next line is read from its start.
fn is_emptied(rt: &HostRuntime, path: &str) -> Outcome {
    let alloc = rt.alloc();
    let mut folder = no_file(Folder::open(*rt, alloc, path, node()))?;
    let mut line = Vec::new(alloc);
    let text = line_for_node(alloc, &secret(), &[1; 18])?;
    let size = text.as_bytes().len() as u64;
    let most = MAX_INBOX_LEN.checked_div(size).ok_or(Failure::Wrong(0))?;
    for _ in 0..most {
        folder.put(node(), text.as_bytes());
    }
    check_row(count(&mut folder, &mut line) == most, 1)?;
    check_row(length(rt, path, node())? == most * size, 2)?;
    folder.put(node(), text.as_bytes());
    check_row(count(&mut folder, &mut line) == 1, 3)?;
    check_row(length(rt, path, node())? == 0, 4)?;
    folder.put(node(), text.as_bytes());
    check_row(count(&mut folder, &mut line) == 1, 5)?;
    check_row(text.as_bytes().starts_with(line.as_slice()), 6)?;
    check_row(length(rt, path, node())? == size, 7)
}

#[test]
fn a_long_inbox_is_emptied(rt: HostRuntime) -> Outcome {
    let path = made(&rt, "emptied")?;
    after(&rt, path.as_str(), is_emptied(&rt, path.as_str()))
}

/// What is in an inbox when it is opened is lost, and so is half a line.
fn opens_empty(rt: &HostRuntime, path: &str) -> Outcome {
    let alloc = rt.alloc();
    append(rt, path, node(), b"old\nhalf")?;
    let mut folder = no_file(Folder::open(*rt, alloc, path, node()))?;
    let mut line = Vec::new(alloc);
    check_row(count(&mut folder, &mut line) == 0, 1)?;
    append(rt, path, node(), b"half")?;
    check_row(count(&mut folder, &mut line) == 0, 2)?;
    append(rt, path, node(), b" a line\n")?;
    check_row(count(&mut folder, &mut line) == 1, 3)?;
    check_row(line.as_slice() == b"half a line".as_slice(), 4)
}

#[test]
fn an_inbox_opens_empty(rt: HostRuntime) -> Outcome {
    let path = made(&rt, "opens")?;
    after(&rt, path.as_str(), opens_empty(&rt, path.as_str()))
}

fn needs_an_inbox(rt: &HostRuntime, path: &str) -> Outcome {
    let nobody = Actor::Node(node_id(9));
    let opened = Folder::open(*rt, rt.alloc(), path, nobody);
    check_row(opened.is_err_and(|e| e.kind() == ErrorKind::NotFound), 1)?;
    check_row(length(rt, path, client())? == 0, 2)
}

#[test]
fn no_inbox(rt: HostRuntime) -> Outcome {
    let path = made(&rt, "no_inbox")?;
    after(&rt, path.as_str(), needs_an_inbox(&rt, path.as_str()))
}

/// Takes lines until one comes, as often as it takes to find out that the inbox is another.
fn finds<C: Carrier>(carrier: &mut C, alloc: Global, want: &[u8], row: usize) -> Outcome {
    let mut line = Vec::new(alloc);
    for _ in 0..200 {
        if carrier.take(&mut line) == Taken::Line {
            return check_row(line.as_slice() == want, row);
        }
    }
    Err(Failure::NoAnswer(row))
}

/// Whether no line comes for as long.
fn misses<C: Carrier>(carrier: &mut C, alloc: Global) -> bool {
    let mut line = Vec::new(alloc);
    (0..200).all(|_| carrier.take(&mut line) == Taken::Nothing)
}

/// An inbox that was taken away is made again, one that was replaced is found, and one that was cut is read from its start.
fn finds_again(rt: &HostRuntime, path: &str) -> Outcome {
    let alloc = rt.alloc();
    let name = inbox_path(alloc, path, node())?;
    let mut folder = no_file(Folder::open(*rt, alloc, path, node()))?;
    folder.put(node(), b"a first line that is long\n");
    finds(&mut folder, alloc, b"a first line that is long", 1)?;
    no_file(fs::remove_file(rt, name.as_str()))?;
    folder.put(node(), b"lost\n");
    check_row(misses(&mut folder, alloc), 2)?;
    folder.put(node(), b"second\n");
    finds(&mut folder, alloc, b"second", 3)?;
    no_file(fs::remove_file(rt, name.as_str()))?;
    append(rt, path, node(), b"third, in another file\n")?;
    finds(&mut folder, alloc, b"third, in another file", 4)?;
    let file = no_file(OpenOptions::new().write(true).open(rt, name.as_str()))?;
    no_file(file.set_len(0))?;
    append(rt, path, node(), b"fourth\n")?;
    finds(&mut folder, alloc, b"fourth", 5)
}

#[test]
fn an_inbox_that_is_taken_away(rt: HostRuntime) -> Outcome {
    let path = made(&rt, "taken_away")?;
    after(&rt, path.as_str(), finds_again(&rt, path.as_str()))
}

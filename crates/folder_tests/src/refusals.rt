//! New services that are refused.

use crate::rooms::{ONE, THREE, after, count, folder_of, init, is_there, made, path_in, put};
use service_folders::Part;
use std::fs;
use test_outcomes::{Failure, Outcome, check_row};

fn make_folder(rt: &HostRuntime, folder: &str) -> Outcome {
    fs::create_dir(rt, folder).map_err(|_| Failure::NoAnswer(0))
}

/// A directory that is there has to be empty.
fn is_not_empty(rt: &HostRuntime, folder: &str) -> Outcome {
    make_folder(rt, folder)?;
    put(rt, folder, "other", b"")?;
    check_row(init(rt, rt, folder, ONE, None, None)? == 961, 1)?;
    check_row(count(rt, folder)? == 1, 2)
}

#[test]
fn a_directory_with_a_file(rt: HostRuntime) -> Outcome {
    let folder = folder_of(&rt, "not_empty")?;
    after(&rt, folder.as_str(), is_not_empty(&rt, folder.as_str()))
}

/// A service is made in an empty directory, and no second one in the same.
fn is_made_once(rt: &HostRuntime, folder: &str) -> Outcome {
    make_folder(rt, folder)?;
    check_row(init(rt, rt, folder, ONE, None, None)? == 0, 1)?;
    check_row(init(rt, rt, folder, ONE, None, None)? == 961, 2)
}

#[test]
fn an_empty_directory(rt: HostRuntime) -> Outcome {
    let folder = folder_of(&rt, "empty")?;
    after(&rt, folder.as_str(), is_made_once(&rt, folder.as_str()))
}

/// The directory can't be made if its parent is missing, or if a file has its name.
fn has_no_place(rt: &HostRuntime, folder: &str) -> Outcome {
    let below = path_in(rt, folder, "locks")?;
    check_row(init(rt, rt, below.as_str(), ONE, None, None)? == 962, 1)?;
    make_folder(rt, folder)?;
    put(rt, folder, "locks", b"")?;
    check_row(init(rt, rt, below.as_str(), ONE, None, None)? == 962, 2)?;
    check_row(init(rt, rt, "", ONE, None, None)? == 962, 3)?;
    // Nobody may make a directory there, whoever runs the test.
    check_row(init(rt, rt, "/proc/locks", ONE, None, None)? == 962, 4)
}

#[test]
fn no_place(rt: HostRuntime) -> Outcome {
    let folder = folder_of(&rt, "no_place")?;
    after(&rt, folder.as_str(), has_no_place(&rt, folder.as_str()))
}

/// Parts that name an actor that three nodes and two clients lack.
const OTHER_PARTS: [&str; 4] = ["n4", "c3", "n1-n16", "n1,c1-c3"];

fn lacks_actors(rt: &HostRuntime, folder: &str) -> Outcome {
    for (row, text) in OTHER_PARTS.iter().enumerate() {
        let part = Part::read(text);
        check_row(part.is_some(), row)?;
        check_row(init(rt, rt, folder, THREE, part, None)? == 965, row)?;
    }
    let there = fs::exists(rt, folder).map_err(|_| Failure::NoAnswer(4))?;
    check_row(!there, 4)
}

#[test]
fn parts_with_other_actors(rt: HostRuntime) -> Outcome {
    let folder = folder_of(&rt, "no_actor")?;
    after(&rt, folder.as_str(), lacks_actors(&rt, folder.as_str()))
}

/// Settings that are refused, and the numbers that a script prints for them.
const BAD_SETTINGS: [(&[u8], u16); 7] = [
    (b"", 922),
    (b"votes\n", 921),
    (b"votes = [1]\nread = 1\nwrite = 1\nproblem = 1\n", 922),
    (
        b"votes = [1]\nread = 1\nwrite = 1\nproblem = 1\nclients = 1025\n",
        922,
    ),
    (
        b"votes = [1]\nread = 1\nwrite = 1\nproblem = 1\nclients = 1\nname = 1\n",
        923,
    ),
    (
        b"votes = [1]\nread = 1\nwrite = 1\nproblem = 1\nclients = 1\n---\n",
        921,
    ),
    (
        b"votes = [1, 1]\nread = 1\nwrite = 1\nproblem = 1\nclients = 1\n",
        204,
    ),
];

fn are_bad(rt: &HostRuntime, folder: &str) -> Outcome {
    for (row, (text, number)) in BAD_SETTINGS.iter().enumerate() {
        let found = init(rt, rt, folder, text, None, None)?;
        check_row(found == *number, row)?;
    }
    let long = vec![in rt.alloc(); b'\n'; 65_536]?;
    check_row(init(rt, rt, folder, &long, None, None)? == 924, 7)?;
    let there = fs::exists(rt, folder).map_err(|_| Failure::NoAnswer(8))?;
    check_row(!there, 8)
}

#[test]
fn bad_settings(rt: HostRuntime) -> Outcome {
    let folder = folder_of(&rt, "bad")?;
    after(&rt, folder.as_str(), are_bad(&rt, folder.as_str()))
}

/// Each fault, in the order in which they are looked for. The settings come before the part, the part before the secret,
/// and the secret before the directory.
fn comes_first(rt: &HostRuntime, folder: &str) -> Outcome {
    made(rt, folder, ONE)?;
    let other = Part::read("n2");
    let none = Some("/tmp/rwvote_folder_no_such_file");
    check_row(init(rt, rt, folder, b"", other, none)? == 922, 0)?;
    check_row(init(rt, rt, folder, ONE, other, none)? == 965, 1)?;
    check_row(init(rt, rt, folder, ONE, None, none)? == 964, 2)?;
    check_row(init(rt, rt, folder, ONE, None, None)? == 961, 3)?;
    check_row(is_there(rt, folder, "settings.toml")?, 4)
}

#[test]
fn the_first_fault(rt: HostRuntime) -> Outcome {
    let folder = folder_of(&rt, "first")?;
    after(&rt, folder.as_str(), comes_first(&rt, folder.as_str()))
}

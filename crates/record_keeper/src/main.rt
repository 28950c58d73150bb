//! A program for tests of records on files. It keeps numbered records in a loop until it is killed.
//!
//! `record_keeper WHAT PATH` does one of these:
//!
//! - `make` makes a new record, number 0, and prints nothing.
//! - `look` opens the record and prints `found N`.
//! - `keep` opens it and prints `found N`. Then it keeps the numbers from N + 1 on, and prints `kept N` after
//!   each.
//!
//! After a fault it prints `fault N` and ends with status 1. Other arguments end it with status 2.
//!
//! The program uses `file_records`, `file_plate` and `stable_record`.
#![tactic(auto)]

mod keeping;
mod numbers;

use crate::keeping::{keep_on, look, make};
use std::process::ExitCode;
use std::{env, io};

/// Does what the arguments say, or nothing if they are others.
fn serve(rt: &HostRuntime, words: &[String]) -> Option<io::Result<bool>> {
    let path = words.get(2)?.as_str();
    match words.get(1)?.as_str() {
        "make" => Some(make(rt, path)),
        "look" => Some(look(rt, path)),
        "keep" => Some(keep_on(rt, path)),
        _ => None,
    }
}

fn main(rt: HostRuntime) -> ExitCode {
    let Ok(words) = env::args(&rt) else {
        return ExitCode::from(2);
    };
    let Ok(words) = words.collect::<Vec<String>>(rt.alloc()) else {
        return ExitCode::from(2);
    };
    match serve(&rt, &words) {
        Some(Ok(true)) => ExitCode::from(0),
        Some(_) => ExitCode::from(1),
        None => ExitCode::from(2),
    }
}

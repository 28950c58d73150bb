//! The secrets of services.

use crate::rooms::{ONE, after, bytes_of, folder_of, init, made, opened, path_in, put};
use frame_lines::Secret;
use service_folders::Service;
use std::fs;
use test_outcomes::{Failure, Outcome, check_row};

/// Whether the service's secret is that of this key.
fn has_key(service: &Service, key: &[u8]) -> bool {
    service.secret().digest(b"n1 ", b"frame") == Secret::of(key).digest(b"n1 ", b"frame")
}

/// Whether these are 64 digits and a line feed.
fn are_digits(content: &[u8]) -> bool {
    let [digits @ .., b'\n'] = content else {
        return false;
    };
    digits.len() == 64 && digits.iter().all(|byte| byte.is_ascii_hexdigit())
}

/// A new secret has 64 digits. Another service has another one. The secret is that of the digits.
fn is_new(rt: &HostRuntime, folder: &str) -> Outcome {
    if fs::create_dir(rt, folder).is_err() {
        return Err(Failure::NoAnswer(0));
    }
    let one = path_in(rt, folder, "one")?;
    let two = path_in(rt, folder, "two")?;
    made(rt, one.as_str(), ONE)?;
    made(rt, two.as_str(), ONE)?;
    let first = bytes_of(rt, one.as_str(), "secret")?;
    let second = bytes_of(rt, two.as_str(), "secret")?;
    check_row(are_digits(&first) && are_digits(&second), 1)?;
    check_row(first.as_slice() != second.as_slice(), 2)?;
    let Some(digits) = first.get(..64) else {
        return Err(Failure::NoAnswer(3));
    };
    check_row(has_key(&opened(rt, one.as_str())?, digits), 3)?;
    check_row(!has_key(&opened(rt, two.as_str())?, digits), 4)
}

#[test]
fn new_secrets(rt: HostRuntime) -> Outcome {
    let folder = folder_of(&rt, "secrets")?;
    after(&rt, folder.as_str(), is_new(&rt, folder.as_str()))
}

/// Contents of files that are no secret.
const NO_SECRETS: [&[u8]; 4] = [
    b"",
    b"0123456789012345678901234567890",
    b"0123456789012345678901234567890\nmore\n",
    b"\n01234567890123456789012345678901\n",
];

/// The number of the fault of making a service with the secret of this file.
fn init_with(rt: &HostRuntime, folder: &str, content: &[u8]) -> Result<u16, Failure> {
    put(rt, folder, "key", content)?;
    let key = path_in(rt, folder, "key")?;
    let below = path_in(rt, folder, "locks")?;
    init(rt, rt, below.as_str(), ONE, None, Some(key.as_str()))
}

fn are_refused(rt: &HostRuntime, folder: &str) -> Outcome {
    if fs::create_dir(rt, folder).is_err() {
        return Err(Failure::NoAnswer(0));
    }
    for (row, content) in NO_SECRETS.iter().enumerate() {
        check_row(init_with(rt, folder, content)? == 964, row)?;
    }
    let long = vec![in rt.alloc(); b'k'; 4_097]?;
    check_row(init_with(rt, folder, &long)? == 964, 4)?;
    let Some(longest) = long.get(1..) else {
        return Err(Failure::NoAnswer(5));
    };
    check_row(init_with(rt, folder, longest)? == 0, 5)
}

#[test]
fn bad_secrets(rt: HostRuntime) -> Outcome {
    let folder = folder_of(&rt, "bad_secrets")?;
    after(&rt, folder.as_str(), are_refused(&rt, folder.as_str()))
}

/// The content of a secret's file is copied whole. The key is its first line.
fn is_copied(rt: &HostRuntime, folder: &str) -> Outcome {
    if fs::create_dir(rt, folder).is_err() {
        return Err(Failure::NoAnswer(0));
    }
    let content: &[u8] = b"0123456789abcdefghijklmnopqrstuvwxyz\nthis is a remark\n";
    check_row(init_with(rt, folder, content)? == 0, 1)?;
    let below = path_in(rt, folder, "locks")?;
    let copied = bytes_of(rt, below.as_str(), "secret")?;
    check_row(copied.as_slice() == content, 2)?;
    let service = opened(rt, below.as_str())?;
    check_row(
        has_key(&service, b"0123456789abcdefghijklmnopqrstuvwxyz"),
        3,
    )
}

#[test]
fn a_copied_secret(rt: HostRuntime) -> Outcome {
    let folder = folder_of(&rt, "copied")?;
    after(&rt, folder.as_str(), is_copied(&rt, folder.as_str()))
}

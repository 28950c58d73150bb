// Records that were written by hand, each under a name.

use std::alloc::Global;
use test_outcomes::Failure;

const WAITS: &str = "01 02 0003 \
00000003 0000000000000000 02 0000000000000001 00 01 61 \
00000002 0000000000000000 01 0000000000000001 01 01 61 \
00000001 0000000000000000 01 0000000000000001 00 01 61";

/// The names of records, and the bytes of each: a word is a field, in hexadecimal digits.
const SPELLED: [(&str, &str); 15] = [
    // Of nodes: without entries, of problem 1 and of problem 2.
    ("first", "01 01 0000"),
    ("second", "01 02 0000"),
    // c1's floor is 3; c1 holds `a` as a reader by its attempt 3; the floor of c9 is 1.
    ("floor3", "01 01 0001 00000001 0000000000000003 00"),
    (
        "holds3",
        "01 01 0001 00000001 0000000000000002 02 0000000000000003 00 01 61",
    ),
    // c3 holds `a` as a reader, c2 waits for it as a writer and c1 behind that one. Of problem 2.
    ("waits3", WAITS),
    ("stranger", "01 01 0001 00000009 0000000000000001 00"),
    // Of clients: the last attempt was none, 2, 3, the greatest.
    ("none", "01 0000000000000000"),
    ("two", "01 0000000000000002"),
    ("three", "01 0000000000000003"),
    ("spent", "01 000000e8d4a51000"),
    // Of neither: too short, of another version, of no problem, past the greatest attempt, and no bytes
    // at all.
    ("short", "01"),
    ("version", "02 01 0000"),
    ("third", "01 03 0000"),
    ("past", "01 000000e8d4a51001"),
    ("empty", ""),
];

/// The bytes of the record of this name, as they are spelled.
fn spelled(name: &str) -> Option<&'static str> {
    for (known, bytes) in &SPELLED {
        if *known == name {
            return Some(*bytes);
        }
    }
    None
}

fn put_field(bytes: &mut Vec<u8>, word: &str) -> Result<(), Failure> {
    let Ok(field) = u64::from_str_radix(word, 16) else {
        return Err(Failure::Wrong(0));
    };
    let start = 8usize.saturating_sub(word.len() / 2);
    for byte in field.to_be_bytes().iter().skip(start) {
        bytes.push(*byte)?;
    }
    Ok(())
}

pub(crate) fn record(alloc: Global, name: &str) -> Result<Vec<u8>, Failure> {
    let Some(spelled) = spelled(name) else {
        return Err(Failure::Wrong(0));
    };
    let mut bytes = Vec::new(alloc);
    for word in spelled.split_whitespace() {
        put_field(&mut bytes, word)?;
    }
    Ok(bytes)
}

/// The records of these names.
pub(crate) fn records(alloc: Global, names: &str) -> Result<Vec<Vec<u8>>, Failure> {
    let mut records = Vec::new(alloc);
    for name in names.split_whitespace() {
        records.push(record(alloc, name)?)?;
    }
    Ok(records)
}

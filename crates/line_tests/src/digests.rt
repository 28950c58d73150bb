//! The test vectors of RFC 4231 for HMAC-SHA-256.

use frame_lines::Secret;
use std::alloc::Global;
use test_outcomes::{Failure, Outcome, check_row};

/// A vector: the byte of the key, how often it is repeated, the data, and the digits of the digest.
type Vector = (u8, usize, &'static [u8], &'static str);

const LONGER: &[u8] =
    b"This is a test using a larger than block-size key and a larger than block-size data. The key needs to be hashed before being used by the HMAC algorithm.";

const VECTORS: [Vector; 5] = [
    (
        0x0b,
        20,
        b"Hi There",
        "b0344c61d8db38535ca8afceaf0bf12b881dc200c9833da726e9376c2e32cff7",
    ),
    (
        0xaa,
        20,
        &[0xdd; 50],
        "773ea91e36800e46854db8ebd09181a72959098b3ef8c122d9635514ced565fe",
    ),
    (
        0x0c,
        20,
        b"Test With Truncation",
        "a3b6167473100ee06e0c796c2955552b",
    ),
    (
        0xaa,
        131,
        b"Test Using Larger Than Block-Size Key - Hash Key First",
        "60e431591ee0b67f0d8a26aacbf5b77f8e0bc6213728c5140546040f0ee37f54",
    ),
    (
        0xaa,
        131,
        LONGER,
        "9b09ffa71b942fcb27635fbcd5b0e944bfdc63644f0713938a7f51535c3a35e2",
    ),
];

/// The two vectors whose keys have different bytes.
const JEFE: &str = "5bdcc146bf60754e6a042426089575c75a003f089d2739839dec58b964ec3843";

const COUNTED: &str = "82558a389a443c0ea4cc819899f2083a85f0faa3e578f8077a2e3ff46729665b";

/// Fails unless the digest under the key begins with these digits, wherever the data is cut in two.
fn begins(alloc: Global, key: &[u8], text: &[u8], digits: &str, row: usize) -> Outcome {
    let secret = Secret::of(key);
    for at in 0..text.len() {
        let digest = secret.digest(&text[..at], &text[at..]);
        let shown = hex::encode(alloc, digest.as_slice())?;
        check_row(shown.as_str().starts_with(digits), row)?;
    }
    Ok(())
}

#[test]
fn keys_of_one_byte(rt: HostRuntime) -> Outcome {
    let alloc = rt.alloc();
    for (row, (byte, times, text, digits)) in VECTORS.iter().enumerate() {
        let mut key = Vec::new(alloc);
        key.resize(*times, *byte)?;
        begins(alloc, key.as_slice(), text, digits, row)?;
    }
    Ok(())
}

#[test]
fn other_keys(rt: HostRuntime) -> Outcome {
    let alloc = rt.alloc();
    begins(alloc, b"Jefe", b"what do ya want for nothing?", JEFE, 1)?;
    let mut key = Vec::new(alloc);
    for byte in 1..=25 {
        key.push(byte)?;
    }
    begins(alloc, key.as_slice(), &[0xcd; 50], COUNTED, 2)
}

/// A key of a whole block is not hashed, and zeros after a key make no difference.
#[test]
fn keys_about_a_block(_rt: HostRuntime) -> Outcome {
    let (block, longer) = ([7; 64], [7; 65]);
    let of = |key: &[u8]| Secret::of(key).digest(b"a", b"b");
    check_row(of(&block) != of(&longer), 1)?;
    check_row(of(b"key") == of(b"key\0\0"), 2)
}

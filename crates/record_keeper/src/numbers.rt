// Numbers as the bodies of records.

use std::alloc::{AllocError, Global};

/// How often a body has its number: it fills three blocks of a device, so that a torn body shows.
const COPIES: u32 = 1_500;

const BODY_LEN: usize = 12_000;

/// The body of a number: its eight bytes, again and again.
pub(crate) fn body_of(alloc: Global, number: u64) -> Result<Vec<u8>, AllocError> {
    let bytes = number.to_be_bytes();
    let mut body = Vec::with_capacity(alloc, BODY_LEN)?;
    for _ in 0..COPIES {
        body.extend_from_slice(&bytes)?;
    }
    Ok(body)
}

/// The number of a body, or none if it is torn.
pub(crate) fn number_of(body: &[u8]) -> Option<u64> {
    let first = body.first_chunk::<8>()?;
    let is_whole = body.len() == BODY_LEN
        && body.chunks_exact(8).all(|chunk| chunk == first.as_slice());
    is_whole.then_some(u64::from_be_bytes(*first))
}

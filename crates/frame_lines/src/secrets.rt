// The secret of a service, and digests under it.

ghost use Rattle.std.specs.Prelude.{◌≡◌, ◌≤◌, ◌-◌, ◌++◌, length, replicate};
ghost use Rattle.frame_lines.specs.Hmac.{block_of, hmac_by, masked};

use sha2::{Digest, Sha256};
use std::marker::Model;

/// How many bytes a block of the hash has.
const BLOCK_LEN: usize = 64;

/// How many bytes a digest has.
const DIGEST_LEN: usize = 32;

/// The secret of a service: bytes that only its own programs know.
///
/// Contracts see it as one block of the hash.
#[derive(Drop)]
pub struct Secret {
    block: [u8; BLOCK_LEN],
}

impl Model for Secret {
    ghost use Rattle.std.specs.Prelude.{List, ℕ};

    ghost Value = { List ℕ };

    ghost view = { λ s. s.block };
}

/// The block, with the bits of the mask flipped in each byte.
fn masked(block: &[u8; BLOCK_LEN], mask: u8) -> [u8; BLOCK_LEN]
    ensures { result ≡ masked mask block.now }
{
    let mut out = *block;
    for at in 0..BLOCK_LEN {
        out[at] = block[at] ^ mask;
    }
    out
}

/// The bytes, and zeros after them up to a block.
fn filled(bytes: &[u8]) -> [u8; BLOCK_LEN]
    requires { length bytes.now ≤ BLOCK_LEN }
    ensures { result ≡ bytes.now ++ replicate (BLOCK_LEN - length bytes.now) 0 }
{
    let mut block = [0; BLOCK_LEN];
    block[..bytes.len()].copy_from_slice(bytes);
    block
}

impl Secret {
    /// The secret of these bytes. They should be at least 32 that nobody can guess.
    #[tactic(auto, using(crate::proofs::DigestFacts::digest_length))]
    pub fn of(key: &[u8]) -> Secret
        ensures { result ≡ block_of key.now }
    {
        if key.len() <= BLOCK_LEN {
            return Secret { block: filled(key) };
        }
        let digest = Sha256::digest(key);
        Secret {
            block: filled(&digest),
        }
    }

    /// HMAC-SHA-256 of two pieces, taken as one message, under the secret.
    pub fn digest(&self, first: &[u8], second: &[u8]) -> [u8; DIGEST_LEN]
        ensures { result ≡ hmac_by self.now (first.now ++ second.now) }
    {
        let mut inner = Sha256::new();
        inner.update(masked(&self.block, 0x36).as_slice());
        inner.update(first);
        inner.update(second);
        let mut outer = Sha256::new();
        outer.update(masked(&self.block, 0x5c).as_slice());
        outer.update(inner.finalize().as_slice());
        outer.finalize()
    }
}

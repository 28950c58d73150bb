// Pairs of the plain policies.

ghost use Rattle.std.specs.Prelude.{◌≡◌, length, None, IfOk};

use admission_policy::Pair;
use std::alloc::Global;
use test_outcomes::Failure;

/// The plain rules of both problems. (They need no boxes, which a library may not make and hand out.)
pub fn plain_pair() -> Pair
    ensures { result ≡ record { first = None; second = None } }
{
    Pair {
        first: None,
        second: None,
    }
}

/// So many such pairs, one for each node.
pub fn plain_pairs(alloc: Global, count: u8) -> Result<Vec<Pair>, Failure>
    ensures { IfOk result (λ pairs. length pairs.items ≡ count) }
{
    let mut pairs = Vec::new(alloc);
    for _ in 0..count {
        pairs.push(plain_pair())?;
    }
    if pairs.len() != count as usize {
        return Err(Failure::Wrong(0));
    }
    Ok(pairs)
}

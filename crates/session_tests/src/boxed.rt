// Records in memory, in boxes. They are boxed here, since a library may not hand out a box that it made.

ghost use Rattle.std.specs.Prelude.{◌≡◌, ◌∷◌, [], IfOk};

use stable_record::StableRecord;
use std::alloc::Global;
use test_outcomes::Failure;
use test_support::in_memory;

/// A record in memory, in which a restart finds these bytes.
pub(crate) fn boxed(alloc: Global, bytes: &[u8]) -> Result<Box<dyn StableRecord + Send>, Failure>
    ensures { IfOk result (λ r. finds r ≡ bytes.now ∷ []) }
{
    let record = in_memory(alloc, bytes)?;
    let record: Box<dyn StableRecord + Send> = Box::new(alloc, record)?;
    Ok(record)
}

// A list of calls that no memory holds.

ghost use Rattle.std.specs.Prelude.{◌≡◌, ℕ, List, [], ◌∷◌};
ghost use Rattle.std.specs.Borrow.{ftrue};

use std::marker::{Model, PhantomData};

/// Calls, the latest first, each with its numbers and its bytes. It takes no memory: clauses read the
/// list as `items`, and no code can. What the numbers mean is up to the crate that keeps the list.
#[derive(Drop)]
pub struct CallList {
    of: PhantomData<u8>,
    pub ghost items: { List (List ℕ × List ℕ) },
}

impl Model for CallList {
    ghost also_owns = { λ _. ftrue };
}

// It owns nothing.
unsafe impl Send for CallList {}

impl CallList {
    /// No calls.
    pub fn new() -> CallList
        ensures { result.items ≡ [] }
    {
        CallList { of: PhantomData }
    }

    /// Adds a call. The numbers and the bytes are read and not kept.
    pub fn note(&mut self, _numbers: &[u64], _bytes: &[u8])
        ensures { self.new.items ≡ (_numbers.now, _bytes.now) ∷ self.old.items }
    {}
}

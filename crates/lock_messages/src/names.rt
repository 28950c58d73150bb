// Names of resources.

ghost use Rattle.std.specs.Prelude.{◌≡◌, ◌≤◌, length, SomeIff, IsTrue};
ghost use Rattle.std.specs.List.{list_all};
ghost use Rattle.lock_messages.specs.Names.{IsName, padded, is_name_byte};

use std::cmp::Ordering;
use std::hash::{Hash, Hasher};
use std::marker::Model;
use std::{fmt, str};

/// The most bytes that a resource's name has.
pub const MAX_NAME_LEN: usize = 32;

/// The name of a resource: 1 to `MAX_NAME_LEN` bytes, each a lower-case letter, a digit or a dash.
/// Names compare as their bytes do, and print as the text that these are.
#[derive(Clone, Copy, Debug)]
pub struct ResourceName {
    // The bytes, and zeros behind them.
    room: [u8; MAX_NAME_LEN],
    size: usize,
}

impl Model for ResourceName {
    ghost use Rattle.std.specs.Prelude.{ℕ, List, length, take};
    ghost use Rattle.lock_messages.specs.Names.{HoldsName, padded};

    ghost Value = { List ℕ };

    ghost view = { λ n. take n.size n.room };

    ghost invariant = { λ n. HoldsName n.room n.size };

    ghost inverse = { λ name. record { room = padded name; size = length name } };
}

/// Whether a name may have this byte.
fn is_name_byte(byte: u8) -> bool
    ensures { result ≡ is_name_byte byte }
{
    matches!(byte, b'a'..=b'z' | b'0'..=b'9' | b'-')
}

/// The bytes, and zeros up to the greatest length; `None` where a name may not have one of them.
fn room_of(bytes: &[u8]) -> Option<[u8; MAX_NAME_LEN]>
    requires { length bytes.now ≤ MAX_NAME_LEN }
    ensures { SomeIff result (IsTrue (list_all is_name_byte bytes.now)) (padded bytes.now) }
{
    let mut room = [0; MAX_NAME_LEN];
    for (i, byte) in bytes.iter().enumerate() {
        if !is_name_byte(*byte) {
            return None;
        }
        room[i] = *byte;
    }
    Some(room)
}

/// Whether a name may have each of these bytes, however many they are.
pub fn has_name_bytes(bytes: &[u8]) -> bool
    ensures { result ≡ list_all is_name_byte bytes.now }
{
    bytes.iter().all(|b| is_name_byte(*b))
}

impl ResourceName {
    /// The name with these bytes, or `None` exactly where they name no resource.
    #[tactic(auto, using(crate::proofs::NameFacts::name_facts))]
    pub fn of(bytes: &[u8]) -> Option<ResourceName>
        ensures { SomeIff result (IsName bytes.now) bytes.now }
    {
        let size = bytes.len();
        if size == 0 || size > MAX_NAME_LEN {
            return None;
        }
        let room = room_of(bytes)?;
        Some(ResourceName { room, size })
    }

    /// The name's bytes.
    pub fn bytes(&self) -> &[u8]
        ensures bytes { result.now ≡ self.now }
        ensures named { IsName result.now }
    {
        &self.room[..self.size]
    }
}

// Hand-written, so that == says that the bytes are equal: a derived one would speak of the padding.
impl PartialEq for ResourceName {
    ghost use Rattle.std.specs.Prelude.{nat_eq};
    ghost use Rattle.std.specs.Cmp.{partial_equiv_from_equiv};
    ghost use Rattle.std.specs.Cmp.Lexicographic.{nat_list_eq_equiv, pointwise};

    ghost eq = { pointwise nat_eq };

    ghost laws = { partial_equiv_from_equiv nat_list_eq_equiv };

    fn eq(&self, other: &ResourceName) -> bool {
        self.bytes() == other.bytes()
    }
}

impl Eq for ResourceName {
    ghost use Rattle.std.specs.Cmp.Lexicographic.{nat_list_eq_equiv};

    ghost laws = { nat_list_eq_equiv };
}

impl Ord for ResourceName {
    ghost use Rattle.std.proofs.Common.{rules};
    ghost use Rattle.std.specs.Cmp.Lexicographic.{slice_cmp};
    ghost use Rattle.std.specs.Cmp.Rules.{comparing};
    ghost use Rattle.std.specs.Ordering.{nat_cmp};

    ghost cmp = { slice_cmp nat_cmp };

    ghost total = { Prim.search (comparing, rules) };

    ghost matches_partial_cmp = { Prim.search (comparing, rules) };

    ghost matches_eq = { Prim.search (comparing, rules) };

    fn cmp(&self, other: &ResourceName) -> Ordering {
        self.bytes().cmp(other.bytes())
    }
}

impl PartialOrd for ResourceName {
    ghost use Rattle.std.proofs.Common.{rules};
    ghost use Rattle.std.specs.Cmp.{partial_order_from_own_ties};
    ghost use Rattle.std.specs.Cmp.Lexicographic.{slice_cmp};
    ghost use Rattle.std.specs.Cmp.Rules.{comparing};
    ghost use Rattle.std.specs.Ordering.{as_partial_cmp, nat_cmp};

    ghost partial_cmp = { as_partial_cmp (slice_cmp nat_cmp) };

    ghost laws = { partial_order_from_own_ties (Prim.search (comparing, rules)) (Prim.search (comparing, rules)) };

    fn partial_cmp(&self, other: &ResourceName) -> Option<Ordering> {
        Some(self.cmp(other))
    }
}

impl Hash for ResourceName {
    ghost use Rattle.std.proofs.Common.{rules};
    ghost use Rattle.std.specs.Cmp.Rules.{hashing};
    ghost use Rattle.std.specs.Hash as fed;

    ghost hash_input = { fed.slice fed.u8 };

    ghost respects_eq = { Prim.search (hashing, rules) };

    fn hash<H: Hasher>(&self, state: &mut H) {
        self.bytes().hash(state);
    }
}

impl fmt::Display for ResourceName {
    ghost use Rattle.std.specs.Prelude.{Some};

    ghost output = { λ name. Some name };

    fn fmt<W: fmt::Write>(&self, f: &mut fmt::Formatter<W>) -> fmt::Result {
        match str::from_utf8(self.bytes()) {
            Ok(text) => f.write_str(text),
            // Letters, digits and dashes are text.
            Err(_) => unreachable!(),
        }
    }
}

// Whether others want locks too, as far as a client knows.

ghost use Rattle.std.specs.Prelude.{◌≡◌, ◌-◌, ◌↔◌, IsTrue};

use std::marker::Model;

/// For how many locks a client asks one node after another, once a node has let it wait.
pub const LOCKS_IN_TURN: u8 = 16;

/// Whether others want locks too, as far as a client knows. It decides how the client asks for its next lock: several nodes
/// at once, which takes a round less, or one after another, by which clients that want one resource do not hinder each other.
///
/// Contracts see for how many locks the client still asks one node after another.
#[derive(Clone, Copy, Debug, PartialEq, Eq)]
pub struct Crowd {
    in_turn: u8,
}

impl Model for Crowd {
    ghost use Rattle.std.specs.Prelude.{ℕ};

    ghost Value = { ℕ };

    ghost view = { λ c. c.in_turn };

    ghost inverse = { λ n. record { in_turn = n } };
}

impl Crowd {
    /// Nobody else wants a lock, as far as is known.
    pub fn none() -> Crowd
        ensures { result ≡ 0 }
    {
        Crowd { in_turn: 0 }
    }

    /// Whether the client asks several nodes at once for its next lock. Each call counts as a lock.
    pub fn asks_at_once(&mut self) -> bool
        ensures answer { IsTrue result ↔ (self.old ≡ 0) }
        ensures counted { self.new ≡ self.old - 1 }
    {
        let is_alone = self.in_turn == 0;
        self.in_turn = self.in_turn.saturating_sub(1);
        is_alone
    }

    /// A node has let the client wait.
    pub fn note(&mut self)
        ensures { self.new ≡ LOCKS_IN_TURN }
    {
        self.in_turn = LOCKS_IN_TURN;
    }
}

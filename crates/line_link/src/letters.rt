// The last line to each node, to be put again.

ghost use Rattle.std.specs.Prelude.{Contains, IfSome};
ghost use Rattle.line_link.specs.Carried.{Given, AreAmong};

use lock_messages::{Actor, NodeId};
use std::alloc::Global;
use std::marker::Model;

/// A line and the actor that it is for.
#[derive(Drop)]
pub(crate) struct Letter {
    pub(crate) to: Actor,
    pub(crate) line: String,
}

impl Model for Letter {
    ghost use Rattle.std.specs.Prelude.{List, ℕ, string_bytes};
    ghost use Rattle.lock_messages.specs.declared.ids.Actor.{Actor as ActorValue};

    ghost Value = { ActorValue × List ℕ };

    ghost view = { λ l. (l.to, string_bytes l.line) };
}

/// The last line to each node to which one was put.
///
/// Contracts see the lines with their actors, in no special order.
#[derive(Drop)]
pub(crate) struct Letters {
    letters: Vec<Letter>,
}

impl Model for Letters {
    ghost use Rattle.line_link.specs.Carried.{Given};

    ghost Value = { Given };

    ghost view = { λ l. l.letters.items };
}

impl Letters {
    /// No lines.
    pub(crate) fn new(alloc: Global) -> Letters
        ensures { (lines : Given) → AreAmong result lines }
    {
        Letters {
            letters: Vec::new(alloc),
        }
    }

    /// Keeps a line in place of the one to the same actor. If memory runs out it is not kept.
    pub(crate) fn keep(&mut self, letter: Letter)
        ensures { (lines : Given) → AreAmong self.old lines → Contains lines letter → AreAmong self.new lines }
    {
        let to = letter.to;
        match self.letters.iter().position(|kept| kept.to == to) {
            Some(at) => self.letters[at] = letter,
            None => {
                let _ = self.letters.push(letter);
            }
        }
    }

    /// The line to a node, if one is kept.
    pub(crate) fn to(&self, node: NodeId) -> Option<&Letter>
        ensures { IfSome result (λ letter. Contains self.now letter.now) }
    {
        let to = Actor::Node(node);
        self.letters.iter().find(|kept| kept.to == to)
    }
}

// The frames that come for an actor over lines.

ghost use Rattle.std.specs.Prelude.{◌≡◌, ℕ, List, Some, IfOk, IfSome};
ghost use Rattle.hex.specs.Hex.{IsBytes};
ghost use Rattle.frame_lines.specs.FrameLines.{IsOkUnlessMemory, counted, frame_line};

use crate::Secret;
use crate::lines::read_frame;
use bytes::Bytes;
use lock_messages::Actor;
use std::alloc::{AllocError, Global};
use std::marker::Model;

/// Takes the frames for an actor out of lines, and counts the lines that it drops.
///
/// Contracts see the secret, the actor whose frames it takes, and how many lines it has dropped.
#[derive(Drop)]
pub struct Inlet {
    alloc: Global,
    secret: Secret,
    own: Actor,
    dropped: u64,
}

impl Model for Inlet {
    ghost use Rattle.frame_lines.specs.FrameLines.{Inflow};

    ghost Value = { Inflow };

    ghost view = { λ i. record { block = i.secret; own = i.own; dropped = i.dropped } };
}

impl Inlet {
    /// Takes frames for this actor under this secret. It has dropped no line yet.
    pub fn of(alloc: Global, secret: Secret, own: Actor) -> Inlet
        ensures { result ≡ record { block = secret; own = own; dropped = 0 } }
    {
        Inlet {
            alloc,
            secret,
            own,
            dropped: 0,
        }
    }

    /// The secret under which it takes frames.
    pub fn secret(&self) -> &Secret
        ensures { result.now ≡ self.now.block }
    {
        &self.secret
    }

    /// The actor whose frames it takes.
    pub fn own(&self) -> Actor
        ensures { result ≡ self.now.own }
    {
        self.own
    }

    /// How many lines were dropped, up to 2 ^ 64 - 1.
    pub fn dropped(&self) -> u64
        ensures { result ≡ self.now.dropped }
    {
        self.dropped
    }

    /// The frame of a line, which is given without its line feed, or `None` for a line that is dropped.
    ///
    /// A line is accepted exactly if it is the one line of a frame for this actor under this secret. The only error is
    /// running out of memory. Then the line is lost and not counted.
    pub fn accept(&mut self, line: &[u8]) -> Result<Option<Bytes>, AllocError>
        ensures accepted { IfOk result (λ o. IfSome o (λ frame. line.now ≡ frame_line self.old.block self.old.own frame)) }
        ensures only { (frame : List ℕ) → IsBytes frame → line.now ≡ frame_line self.old.block self.old.own frame → IsOkUnlessMemory result (Some frame) }
        ensures counted { self.new ≡ counted self.old result }
    {
        let found = read_frame(self.alloc, &self.secret, self.own, line)?;
        if found.is_none() {
            self.dropped = self.dropped.saturating_add(1);
        }
        Ok(found)
    }
}

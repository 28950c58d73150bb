// The frames of the messages that were said.

ghost use Rattle.std.specs.Prelude.{◌≡◌, [], OnOk, OnErr};
ghost use Rattle.lock_messages.specs.Frames.{frame_of};
ghost use Rattle.lock_messages.specs.Messages.{IsMessage};
ghost use Rattle.frame_numbers.specs.SaidFrames.{has_frame, AddsFrame, AddsFrames};
ghost use Rattle.world_machine.specs.Machines.{with_sent};

use crate::messages::is_message;
use bytes::Bytes;
use indexmap::IndexSet;
use lock_messages::{Message, encode};
use std::alloc::{AllocError, Global};
use std::marker::Model;
use world_machine::Actors;
use world_model::MAX_MESSAGES;

/// The frames of the messages that were said, each once.
#[derive(Drop)]
pub struct SaidFrames {
    alloc: Global,
    frames: IndexSet<Bytes>,
}

impl Model for SaidFrames {
    ghost use Rattle.std.specs.Prelude.{ℕ, List};

    ghost Value = { List (List ℕ) };

    ghost view = { λ s. s.frames.keys };
}

/// Puts a frame into a set.
fn put_frame(frames: &mut IndexSet<Bytes>, frame: Bytes) -> Result<(), AllocError>
    ensures put { OnOk result (AddsFrame frames.old.keys frame frames.new.keys) }
    ensures same { OnErr result (frames.new.keys ≡ frames.old.keys) }
{
    match frames.insert(frame) {
        Ok(_) => Ok(()),
        Err(_) => Err(AllocError),
    }
}

impl SaidFrames {
    /// No frames. It takes no memory.
    pub fn new(alloc: Global) -> SaidFrames
        ensures { result ≡ [] }
    {
        SaidFrames {
            alloc,
            frames: IndexSet::new(alloc),
        }
    }

    /// Whether a message with this frame was said. One look-up.
    pub fn has(&self, frame: &Bytes) -> bool
        ensures { result ≡ has_frame self.now frame.now }
    {
        self.frames.contains(frame)
    }

    /// Takes in a message.
    fn note(&mut self, message: &Message) -> Result<(), AllocError>
        ensures adds { OnOk result (AddsFrame self.old (frame_of message.now) self.new) }
        ensures known { IsMessage message.now }
    {
        is_message(message);
        let Ok(frame) = encode(self.alloc, message) else {
            return Err(AllocError);
        };
        put_frame(&mut self.frames, frame)
    }

    /// Takes in all messages of the list.
    fn note_all(&mut self, actors: &Actors) -> Result<(), AllocError>
        ensures { OnOk result (AddsFrames self.old actors.now.sent self.new) }
    {
        actors.room();
        for number in 0..MAX_MESSAGES {
            let Some(message) = actors.sent(number + 1) else {
                return Ok(());
            };
            self.note(&message)?;
        }
        Ok(())
    }

    /// Takes in all messages of the actors' list. Then the actors forget them.
    ///
    /// The only error is that there is no memory. Then it has taken in some of them.
    pub fn take_in(&mut self, actors: &mut Actors) -> Result<(), AllocError>
        requires { Unit {0} }
        ensures adds { OnOk result (AddsFrames self.old actors.old.sent self.new) }
        ensures forgets { OnOk result (actors.new ≡ with_sent actors.old []) }
    {
        match self.note_all(actors) {
            Ok(()) => {}
            Err(fault) => return Err(fault),
        }
        actors.forget_messages();
        Ok(())
    }
}

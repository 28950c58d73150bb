// The numbers of messages, by their frames.

ghost use Rattle.std.specs.Prelude.{◌≡◌, ◌+◌, ◌<◌, true, List, IfOk, IfSome, OnOk, OnErr};
ghost use Rattle.lock_messages.specs.declared.messages.Message.{Message as MessageValue};
ghost use Rattle.lock_messages.specs.Frames.{frame_of};
ghost use Rattle.frame_numbers.specs.FrameNumbers.{HasFrame, IsIndexOf, IsWhole, number_in, Puts};

use crate::lately::Lately;
use crate::messages::is_same;
use bytes::Bytes;
use indexmap::IndexMap;
use lock_messages::{Message, decode, encode};
use std::alloc::{AllocError, Global};
use std::marker::Model;
use world_machine::Actors;
use world_model::MAX_MESSAGES;

/// The number of a message that was said, for each frame.
///
/// A number that was said lately is found at once. The others are taken in only if one of them is looked for.
#[derive(Drop)]
pub struct FrameNumbers {
    alloc: Global,
    numbers: IndexMap<Bytes, u32>,
    seen: u32,
    lately: Lately,
}

impl Model for FrameNumbers {
    ghost use Rattle.frame_numbers.specs.FrameNumbers.{Seen};

    ghost Value = { Seen };

    ghost view = { λ s. record { entries = s.numbers.entries; count = s.seen } };
}

/// Puts a number under a frame, in place of what stood there.
fn put_number(
    numbers: &mut IndexMap<Bytes, u32>,
    frame: Bytes,
    number: u32,
) -> Result<(), AllocError>
    ensures put { OnOk result (Puts numbers.old.entries frame number numbers.new.entries) }
    ensures same { OnErr result (numbers.new.entries ≡ numbers.old.entries) }
{
    match numbers.insert(frame, number) {
        Ok(_) => Ok(()),
        Err(_) => Err(AllocError),
    }
}

/// Whether the message of this number has the frame. It may miss one that has.
fn has_frame(actors: &Actors, number: u32, frame: &Bytes) -> bool
    ensures { result ≡ true → HasFrame actors.now.sent number frame.now }
{
    let Some(said) = actors.sent(number) else {
        return false;
    };
    match decode(frame) {
        Ok(message) => is_same(&message, &said),
        Err(_) => false,
    }
}

impl FrameNumbers {
    /// No numbers. It takes no memory.
    pub fn new(alloc: Global) -> FrameNumbers
        ensures { (sent : List MessageValue) → IsIndexOf result sent }
    {
        FrameNumbers {
            alloc,
            numbers: IndexMap::new(alloc),
            seen: 0,
            lately: Lately::new(alloc),
        }
    }

    /// The number of a message with this frame, if it is one that was said lately. It takes in no message, and `None`
    /// says nothing. One look at a table, and at the message.
    ///
    /// The only error is that there is no memory.
    pub fn number_lately(
        &mut self,
        actors: &Actors,
        frame: &Bytes,
    ) -> Result<Option<u32>, AllocError>
        ensures same { self.new ≡ self.old }
        ensures found { IfOk result (λ found. IfSome found (λ k. HasFrame actors.now.sent k frame.now)) }
    {
        self.lately.catch_up(actors)?;
        let Some(number) = self.lately.number_near(frame) else {
            return Ok(None);
        };
        if has_frame(actors, number, frame) {
            Ok(Some(number))
        } else {
            Ok(None)
        }
    }

    /// The number of a message with this frame, if one was taken in. One look-up.
    pub fn number_of(&self, frame: &Bytes) -> Option<u32>
        ensures { result ≡ number_in self.now.entries frame.now }
    {
        self.numbers.get(frame).copied()
    }

    /// Takes in the next message.
    fn note(&mut self, message: &Message) -> Result<(), AllocError>
        requires { self.old.count < MAX_MESSAGES }
        ensures puts { OnOk result (Puts self.old.entries (frame_of message.now) (self.old.count + 1) self.new.entries) }
        ensures one { OnOk result (self.new.count ≡ self.old.count + 1) }
        ensures same { OnErr result (self.new ≡ self.old) }
    {
        let Ok(frame) = encode(self.alloc, message) else {
            return Err(AllocError);
        };
        put_number(&mut self.numbers, frame, self.seen + 1)?;
        self.seen += 1;
        Ok(())
    }

    /// Takes in all messages of the actors' list that it doesn't have.
    ///
    /// The only error is that there is no memory. Then it has taken in some of them.
    #[tactic(auto, using(crate::proofs::NumberFacts::noted_next, crate::proofs::NumberFacts::caught_up, crate::proofs::NumberFacts::full_up))]
    pub fn catch_up(&mut self, actors: &Actors) -> Result<(), AllocError>
        ensures index { IsIndexOf self.old actors.now.sent → IsIndexOf self.new actors.now.sent }
        ensures whole { OnOk result (IsIndexOf self.old actors.now.sent → IsWhole self.new actors.now.sent) }
    {
        actors.room();
        for number in self.seen..MAX_MESSAGES {
            let Some(message) = actors.sent(number + 1) else {
                return Ok(());
            };
            self.note(&message)?;
        }
        Ok(())
    }
}

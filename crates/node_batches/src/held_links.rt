// A link that holds back what is sent.

ghost use Rattle.std.specs.Prelude.{◌≡◌, ◌++◌, ◌∷◌, [], List, Some, true, false, OnOk, OnErr, IsOkUnless};
ghost use Rattle.lossy_link.specs.declared.parcels.Sending.{Sending as SendingValue};

use lock_messages::Actor;
use lossy_link::{Link, LinkFault, Parcel, Post, Sending};
use std::alloc::Global;
use std::marker::{Brand, Model, PhantomData};
use std::vec::IntoIter;

/// What was sent before a batch. The call that works off the batch picks it.
pub(crate) trait Before {
    ghost sent: { List SendingValue };
}

impl Before for Brand {
    ghost sent = { [] };
}

/// A link that brings the posts of a batch, and holds back what is sent and told over it.
///
/// Its type names what was sent before the batch. This and what it holds back is all that was given to it.
#[derive(Drop)]
pub(crate) struct HeldLink<B: Before> {
    posts: IntoIter<Post>,
    held: Vec<Sending>,
    is_refused: bool,
    before: PhantomData<B>,
}

impl<B: Before> Model for HeldLink<B> {
    ghost use Rattle.std.specs.Vec.Iter.{into_iter_items};
    ghost use Rattle.node_batches.specs.Batches.{Holding};

    ghost Value = { Holding };

    ghost view = { λ l. record { coming = into_iter_items l.posts; held = l.held.items; refused = l.is_refused } };
}

impl<B: Before> HeldLink<B> {
    /// The link that brings these posts.
    pub(crate) fn of(alloc: Global, posts: Vec<Post>) -> HeldLink<B>
        ensures { result ≡ record { coming = posts.items; held = []; refused = false } }
    {
        HeldLink {
            posts: posts.into_iter(),
            held: Vec::new(alloc),
            is_refused: false,
            before: PhantomData,
        }
    }

    /// What it holds back, in order.
    pub(crate) fn into_held(self) -> Vec<Sending>
        ensures { result.items ≡ self.held }
    {
        self.held
    }

    /// Holds it back, unless memory runs out.
    fn hold(&mut self, sending: Sending) -> Result<(), LinkFault>
        ensures held { OnOk result (self.new ≡ record { coming = self.old.coming; held = self.old.held ++ sending ∷ []; refused = self.old.refused }) }
        ensures refused { OnErr result (self.new ≡ record { coming = self.old.coming; held = self.old.held; refused = true }) }
        ensures memory { IsOkUnless result LinkFault.Memory }
    {
        if self.held.push(sending).is_err() {
            self.is_refused = true;
            return Err(LinkFault::Memory);
        }
        Ok(())
    }
}

impl<B: Before> Link for HeldLink<B> {
    ghost coming = { λ l. Some l.coming };

    ghost given = { λ l. Some (B.sent ++ l.held) };

    ghost refused = { λ l. Some l.refused };

    /// Holds it back. 903: out of memory.
    fn send(&mut self, to: Actor, parcel: Parcel) -> Result<(), LinkFault> {
        self.hold(Sending::Sent(to, parcel))
    }

    /// Holds it back. 903: out of memory.
    fn tell_all(&mut self, post: Post) -> Result<(), LinkFault> {
        self.hold(Sending::Told(post))
    }

    /// The first of the posts that are left. 902: none is left.
    fn receive(&mut self) -> Result<Post, LinkFault> {
        self.posts.next().ok_or(LinkFault::Closed)
    }
}

// A link over lists, for tests.

ghost use Rattle.std.specs.Prelude.{◌≡◌, true, false, [], ◌∷◌, ◌++◌, Some, OnOk, OnErr, IsOkUnless};
ghost use Rattle.lossy_link.specs.Links.{Brings};

use crate::{Link, LinkFault, Parcel, Post, Sending};
use lock_messages::Actor;
use std::marker::Model;
use std::vec::IntoIter;

/// A link that brings given posts, in order, and remembers what was sent and told over it, and whether
/// memory was refused for that. Nothing goes anywhere, and no call waits.
#[derive(Drop)]
pub struct ListLink {
    posts: IntoIter<Post>,
    told: Vec<Sending>,
    refused: bool,
}

impl Model for ListLink {
    ghost use Rattle.std.specs.Vec.Iter.{into_iter_items};
    ghost use Rattle.lossy_link.specs.Links.{Listed};

    ghost Value = { Listed };

    ghost view = { λ l. record { coming = into_iter_items l.posts; given = l.told.items; refused = l.refused } };
}

impl ListLink {
    /// The link that brings these posts and is closed behind them.
    pub fn of(posts: Vec<Post>) -> ListLink
        ensures { result ≡ record { coming = posts.items; given = []; refused = false } }
    {
        ListLink {
            told: Vec::new(*posts.allocator()),
            posts: posts.into_iter(),
            refused: false,
        }
    }

    /// What was sent and told over it, in order.
    pub fn sent(&self) -> &[Sending]
        ensures { result.now ≡ self.now.given }
    {
        &self.told
    }

    /// Whether memory was refused for something that was to be sent or told over it.
    pub fn was_refused(&self) -> bool
        ensures { result ≡ self.now.refused }
    {
        self.refused
    }

    /// Remembers it, or that memory was refused for it.
    fn remember(&mut self, sending: Sending) -> Result<(), LinkFault>
        ensures given { OnOk result (self.new ≡ record { coming = self.old.coming; given = self.old.given ++ sending ∷ []; refused = self.old.refused }) }
        ensures refused { OnErr result (self.new ≡ record { coming = self.old.coming; given = self.old.given; refused = true }) }
        ensures memory { IsOkUnless result LinkFault.Memory }
    {
        if self.told.push(sending).is_err() {
            self.refused = true;
            return Err(LinkFault::Memory);
        }
        Ok(())
    }
}

impl Link for ListLink {
    ghost coming = { λ l. Some l.coming };

    ghost given = { λ l. Some l.given };

    ghost refused = { λ l. Some l.refused };

    /// Remembers it. 903: memory was refused, which alone is remembered.
    fn send(&mut self, to: Actor, parcel: Parcel) -> Result<(), LinkFault>
        ensures sent { OnOk result (self.new ≡ record { coming = self.old.coming; given = self.old.given ++ Sending.Sent to parcel ∷ []; refused = self.old.refused }) }
        ensures refused { OnErr result (self.new ≡ record { coming = self.old.coming; given = self.old.given; refused = true }) }
        ensures memory { IsOkUnless result LinkFault.Memory }
    {
        self.remember(Sending::Sent(to, parcel))
    }

    /// Remembers it. 903: memory was refused, which alone is remembered.
    fn tell_all(&mut self, post: Post) -> Result<(), LinkFault>
        ensures told { OnOk result (self.new ≡ record { coming = self.old.coming; given = self.old.given ++ Sending.Told post ∷ []; refused = self.old.refused }) }
        ensures refused { OnErr result (self.new ≡ record { coming = self.old.coming; given = self.old.given; refused = true }) }
        ensures memory { IsOkUnless result LinkFault.Memory }
    {
        self.remember(Sending::Told(post))
    }

    /// The first of the posts that are left. 902: none is left. It takes no memory.
    fn receive(&mut self) -> Result<Post, LinkFault> {
        self.posts.next().ok_or(LinkFault::Closed)
    }

    /// Whether a post is left.
    fn has_more(&self) -> bool {
        self.posts.len() > 0
    }
}

// What it means to be a link.

ghost use Rattle.std.specs.Prelude.{◌≡◌, Bool, List, Option, OnOk, OnErr, IsOkUnless};
ghost use Rattle.lossy_link.specs.Links.{one_more, refused_after, Brings, HasMore};
ghost use Rattle.lossy_link.specs.declared.parcels.Post.{Post as PostValue};
ghost use Rattle.lossy_link.specs.declared.parcels.Sending.{Sending as SendingValue};

use crate::{LinkFault, Parcel, Post, Sending};
use lock_messages::Actor;

/// An actor's way to the others.
///
/// What it means is in three words, which no code computes. `coming`: the posts that it will bring, in
/// order, if that is known. `given`: what was sent and told over it, in order, if it remembers that; a
/// call that was refused memory is not among it. `refused`: whether memory was refused in a call, if it
/// remembers that. Where a link knows none of them, as one between threads, nothing is known of a post
/// that it brings but its type. The rules are our own.
pub trait Link {
    ghost coming: { Self → Option (List PostValue) };

    ghost given: { Self → Option (List SendingValue) };

    ghost refused: { Self → Option Bool };

    /// Sends a parcel to an actor; for one that has ended, or that this link does not reach, it does
    /// nothing. 903: memory was refused, and a part may have gone.
    fn send(&mut self, to: Actor, parcel: Parcel) -> Result<(), LinkFault>
        ensures sent { OnOk result (given self.new ≡ one_more (given self.old) (SendingValue.Sent to parcel)) }
        ensures still { OnErr result (given self.new ≡ given self.old) }
        ensures refused { refused self.new ≡ refused_after (refused self.old) result }
        ensures memory { IsOkUnless result LinkFault.Memory }
        ensures coming { coming self.new ≡ coming self.old };

    /// Tells every client, past the weather, a nudge or that a node is gone. 903: memory was refused,
    /// and a part may have gone.
    fn tell_all(&mut self, post: Post) -> Result<(), LinkFault>
        ensures told { OnOk result (given self.new ≡ one_more (given self.old) (SendingValue.Told post)) }
        ensures still { OnErr result (given self.new ≡ given self.old) }
        ensures refused { refused self.new ≡ refused_after (refused self.old) result }
        ensures memory { IsOkUnless result LinkFault.Memory }
        ensures coming { coming self.new ≡ coming self.old };

    /// The next post. It may wait for one. 902: nothing comes any more.
    fn receive(&mut self) -> Result<Post, LinkFault>
        ensures brought { Brings (coming self.old) result (coming self.new) }
        ensures closed { IsOkUnless result LinkFault.Closed }
        ensures given { given self.new ≡ given self.old }
        ensures refused { refused self.new ≡ refused self.old };

    /// Whether a post has come, so that the next `receive` brings one and does not wait. A link that can't tell says no.
    fn has_more(&self) -> bool
        ensures more { HasMore result (coming self.now) }
    {
        false
    }
}

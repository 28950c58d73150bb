// What a link brings at whose other end a node takes its turns at once.

ghost use Rattle.std.specs.Prelude.{IsOkUnless};

use lock_messages::NodeId;
use lossy_link::{LinkFault, Post};
use std::alloc::Global;

/// The posts that a node's link will bring, the first one first. A node that has kept something nudges so often
/// before its next answer.
#[derive(Drop)]
pub struct Inbox {
    node: NodeId,
    posts: Vec<Post>,
    nudges: u32,
    due: u32,
}

impl Inbox {
    /// Nothing comes yet. The node nudges so often before each answer.
    pub fn of(alloc: Global, node: NodeId, nudges: u32) -> Inbox {
        Inbox {
            node,
            posts: Vec::new(alloc),
            nudges,
            due: 0,
        }
    }

    /// The node has kept something, so it is about to nudge.
    pub fn keep(&mut self) {
        self.due = self.nudges;
    }

    /// The post will be brought.
    pub fn bring(&mut self, post: Post) -> Result<(), LinkFault>
        ensures { IsOkUnless result LinkFault.Memory }
    {
        if self.posts.push(post).is_err() {
            return Err(LinkFault::Memory);
        }
        Ok(())
    }

    /// The nudges that the node is about to make will be brought.
    pub fn nudge(&mut self) -> Result<(), LinkFault>
        ensures { IsOkUnless result LinkFault.Memory }
    {
        for _ in 0..self.due {
            self.bring(Post::Nudge(self.node))?;
        }
        self.due = 0;
        Ok(())
    }

    /// The next post, which is taken out. Where none will come the link is closed.
    pub fn receive(&mut self) -> Result<Post, LinkFault>
        ensures { IsOkUnless result LinkFault.Closed }
    {
        if self.posts.is_empty() {
            return Err(LinkFault::Closed);
        }
        Ok(self.posts.remove(0))
    }
}

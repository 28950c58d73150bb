// A node's link that switches the node's problem.

use lock_messages::Actor;
use lossy_link::{ChannelLink, Link, LinkFault, Parcel, Post};
use std::sync::Wait;

/// The post of each number that this divides is a switch.
const EVERY: u32 = 50;

/// A link between threads that brings, as each fiftieth post, a switch of the problem: to problem 2, then to
/// problem 1, and so on in turn.
#[derive(Drop)]
pub(crate) struct SwitchingLink<R: Wait + Copy> {
    link: ChannelLink<R>,
    brought: u32,
}

impl<R: Wait + Copy> SwitchingLink<R> {
    pub(crate) fn over(link: ChannelLink<R>) -> SwitchingLink<R> {
        SwitchingLink { link, brought: 0 }
    }
}

impl<R: Wait + Copy> Link for SwitchingLink<R> {
    ghost use Rattle.std.specs.Prelude.{None};

    ghost coming = { λ _. None };

    ghost given = { λ _. None };

    ghost refused = { λ _. None };

    fn send(&mut self, to: Actor, parcel: Parcel) -> Result<(), LinkFault> {
        self.link.send(to, parcel)
    }

    fn tell_all(&mut self, post: Post) -> Result<(), LinkFault> {
        self.link.tell_all(post)
    }

    fn receive(&mut self) -> Result<Post, LinkFault> {
        self.brought = self.brought.wrapping_add(1);
        if self.brought % EVERY != 0 {
            return self.link.receive();
        }
        let problem = if self.brought / EVERY % 2 == 1 { 2 } else { 1 };
        Ok(Post::Switch(problem))
    }
}

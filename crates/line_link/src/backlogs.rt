// The posts that have come for a node and wait for their turn.

use lock_messages::{Attempt, ClientId, Message, decode};
use lossy_link::Post;
use std::alloc::Global;
use std::collections::VecDeque;

/// How many lines a node looks ahead of its turn.
const MAX_AHEAD: usize = 2_048;

/// The client that says a message, and the attempt that it speaks of, if it is a message to a node.
fn said_in(message: &Message) -> Option<(ClientId, Attempt)> {
    match *message {
        Message::Request(_, ticket) => Some((ticket.client, ticket.attempt)),
        Message::Release(_, client, attempt) | Message::Soften(_, client, attempt) => {
            Some((client, attempt))
        }
        Message::Grant(..)
        | Message::Busy(..)
        | Message::Over(..)
        | Message::Done(..)
        | Message::Muddled(..)
        | Message::Softened(..) => None,
    }
}

/// The same of a post.
fn said_by(post: &Post) -> Option<(ClientId, Attempt)> {
    let Post::Parcel(parcel) = post else {
        return None;
    };
    match decode(parcel.frame.as_slice()) {
        Ok(message) => said_in(&message),
        Err(_) => None,
    }
}

/// The posts that have come for a node and wait for their turn, at most `MAX_AHEAD`.
///
/// A message of an attempt is dropped if one of a later attempt of the same client waits too or has just waited, since the
/// client has given up the earlier one. So a node that gets more than it can keep does no work for attempts that are over.
#[derive(Drop)]
pub(crate) struct Backlog {
    posts: VecDeque<Post>,
    // How many lines were looked at since the last turn.
    looked: usize,
    // For each client, by its number, the latest attempt that was seen since nothing waited.
    latest: Vec<u64>,
}

impl Backlog {
    /// Nothing waits.
    pub(crate) fn new(alloc: Global) -> Backlog {
        Backlog {
            posts: VecDeque::new(alloc),
            looked: 0,
            latest: Vec::new(alloc),
        }
    }

    /// Notes that the client speaks of this attempt. If memory runs out it is not noted.
    fn note(&mut self, client: ClientId, attempt: Attempt) {
        let place = client.get() as usize;
        for _ in self.latest.len()..=place {
            if self.latest.push(0).is_err() {
                return;
            }
        }
        if let Some(latest) = self.latest.get_mut(place) {
            *latest = attempt.get().max(*latest);
        }
    }

    /// Whether the client has begun a later attempt than the one that the post speaks of.
    fn is_over(&self, post: &Post) -> bool {
        let Some((client, attempt)) = said_by(post) else {
            return false;
        };
        match self.latest.get(client.get() as usize) {
            Some(latest) => attempt.get() < *latest,
            None => false,
        }
    }

    /// Counts a line that is looked at, whether it brings a post or not.
    pub(crate) fn look(&mut self) {
        self.looked = self.looked.saturating_add(1);
    }

    /// Lets a post wait for its turn. If memory runs out it is lost.
    pub(crate) fn add(&mut self, post: Post) {
        if self.posts.is_empty() {
            self.latest.clear();
        }
        if let Some((client, attempt)) = said_by(&post) {
            self.note(client, attempt);
        }
        let _ = self.posts.push_back(post);
    }

    /// Whether it is time for the next turn, however many lines have come.
    pub(crate) fn is_full(&self) -> bool {
        self.posts.len() >= MAX_AHEAD || self.looked >= MAX_AHEAD
    }

    /// Whether a post waits for its turn.
    pub(crate) fn has_more(&self) -> bool {
        for post in &self.posts {
            if !self.is_over(post) {
                return true;
            }
        }
        false
    }

    /// The next post whose turn it is.
    pub(crate) fn next(&mut self) -> Option<Post> {
        self.looked = 0;
        for _ in 0..MAX_AHEAD {
            let post = self.posts.pop_front()?;
            if !self.is_over(&post) {
                return Some(post);
            }
        }
        None
    }
}

// What can still move in the links of a run, and their coming to rest.

use crate::Post;
use std::alloc::{AllocError, Global};
use std::sync::Arc;
use std::sync::atomic::{AtomicUsize, Ordering};

/// How many can still move in the links of a run: actors that don't wait, and posts in inboxes.
#[derive(Drop)]
pub(crate) struct Rests {
    moving: Arc<AtomicUsize>,
}

/// One of those that can still move. Dropping it takes it away.
pub(crate) struct Moving {
    moving: Arc<AtomicUsize>,
}

/// What is put into an inbox.
#[derive(Drop)]
pub(crate) enum Delivery {
    /// A post. While it lies there its actor has yet to move by it.
    Post(Post, Moving),
    /// All links are at rest: no post will come any more.
    Rest,
}

impl Rests {
    /// Nothing can move yet.
    pub(crate) fn new(alloc: Global) -> Result<Rests, AllocError> {
        let moving = Arc::new(alloc, AtomicUsize::new(0))?;
        Ok(Rests { moving })
    }

    /// The same count, for another link.
    pub(crate) fn shared(&self) -> Result<Rests, AllocError> {
        let moving = Arc::try_clone(&self.moving)?;
        Ok(Rests { moving })
    }

    /// Counts one more that can move.
    pub(crate) fn one_more(&self) -> Result<Moving, AllocError> {
        let moving = Arc::try_clone(&self.moving)?;
        moving.fetch_add(1, Ordering::SeqCst);
        Ok(Moving { moving })
    }
}

impl Moving {
    /// Takes it away, and answers whether it was the last: whether nothing can move any more.
    pub(crate) fn was_last(self) -> bool {
        let Self { moving } = self;
        moving.fetch_sub(1, Ordering::SeqCst) == 1
    }
}

impl Drop for Moving {
    fn drop(self) {
        let Self { moving } = self;
        moving.fetch_sub(1, Ordering::SeqCst);
    }
}

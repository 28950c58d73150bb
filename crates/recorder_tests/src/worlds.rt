// A world to log in, and a book over it.

use book_support::book_over;
use history_book::Book;
use lock_model::Problem;
use std::alloc::Global;
use test_outcomes::Failure;
use test_support::{ballots_of, new_world};
use world_machine::World;

/// A world of one node, under problem 1, and two clients, all down.
pub(crate) fn world(alloc: Global) -> Result<World, Failure> {
    new_world(alloc, ballots_of(&[1], 1, 1)?, Problem::First, 2)
}

/// A book over the world.
pub(crate) fn book(alloc: Global) -> Result<Book, Failure> {
    book_over(alloc, 7, world(alloc)?)
}

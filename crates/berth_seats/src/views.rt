// What seats know, and what a step announces, as plain data. No value of a view is ever made.

use lock_messages::Actor;
use std::collections::LinkedList;
use world_model::{Effect, Event, ExactWorld};

/// What is known of a book: the world that it was opened with, its history, and the actors that
/// were given a berth.
#[derive(Drop)]
pub struct BookView {
    pub opening: ExactWorld,
    pub history: LinkedList<(Event, Effect)>,
    pub given: LinkedList<Actor>,
}

/// What is known of a berth: its actor, the world that its book was opened with, and the beginning
/// of the history that it has seen.
#[derive(Drop)]
pub struct BerthView {
    pub actor: Actor,
    pub opening: ExactWorld,
    pub seen: LinkedList<(Event, Effect)>,
}

/// What a seat knows. What it says of a book counts where it is the book's seat, what it says of a
/// berth where a berth is aboard.
#[derive(Drop)]
pub struct View {
    pub is_book: bool,
    pub book: BookView,
    pub has_berth: bool,
    pub berth: BerthView,
}

/// What a step announces that changes more than what was seen.
#[derive(Drop)]
pub enum Announcement {
    /// The actor gets a berth.
    Give(Actor),
    /// The event with its effect joins the history.
    Add(Event, Effect),
}

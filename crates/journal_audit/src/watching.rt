// Who looks on as lines are judged or done.

ghost use Rattle.std.specs.Prelude.{◌≡◌, [], ◌∷◌, List, Option, None};
ghost use Rattle.journal_audit.specs.Hearing.{Word, Happened, Asked, Bad, Over, with_words};

use event_lines::{LineFault, Query};
use world_machine::World;
use world_model::{Effect, Event, StepFault};

/// Looks on as the lines of an input are judged or done, and hears of each, in order, what it came to. It can't
/// change that: what is answered and printed is the same, whoever looks on.
pub trait Watcher {
    /// What it heard, in order, where it knows it.
    ghost heard: { Self → Option (List Word) };

    /// The line is an event, which was taken with this effect or refused. The world is the one behind it.
    fn see_event(&mut self, world: &World, event: &Event, came: &Result<Effect, StepFault>)
        ensures { heard self.new ≡ with_words (Happened event.now came.now ∷ []) (heard self.old) };

    /// The line is a query, which was answered or refused.
    fn see_query(&mut self, query: &Query, came: Result<(), StepFault>)
        ensures { heard self.new ≡ with_words (Asked query.now came ∷ []) (heard self.old) };

    /// The line is neither, and is the last. Of one that is too long these are the bytes that show it.
    fn see_bad(&mut self, line: &[u8], fault: LineFault)
        ensures { heard self.new ≡ with_words (Bad fault ∷ []) (heard self.old) };

    /// All lines went on, so many, and no other is left.
    fn see_end(&mut self, lines: u32)
        ensures { heard self.new ≡ with_words (Over lines ∷ []) (heard self.old) };
}

/// Nobody looks on.
#[derive(Drop)]
pub struct Unwatched;

impl Watcher for Unwatched {
    ghost heard = { λ _. None };

    fn see_event(&mut self, _world: &World, _event: &Event, _came: &Result<Effect, StepFault>) {}

    fn see_query(&mut self, _query: &Query, _came: Result<(), StepFault>) {}

    fn see_bad(&mut self, _line: &[u8], _fault: LineFault) {}

    fn see_end(&mut self, _lines: u32) {}
}

//! Laws about lines. Each function computes nothing: its contract is the law.

ghost use Rattle.std.specs.Prelude.{◌≡◌};
ghost use Rattle.event_lines.specs.Laws.{
  EventsAreSpelledOnce,
  LinesAreSpelledOnce,
  NumbersAreSpelledOnce,
  WishesAreSpelledOnce,
};

use crate::{MAX_LINE_LEN, MAX_WISHES};

/// A word spells a number exactly where it is the number's decimal text, which has no leading zero.
pub fn numbers_are_spelled_once()
    ensures { NumbersAreSpelledOnce }
{}

/// A line says an event or a query exactly where it is the one text of it, byte for byte, this is in
/// range, and its command is read: so each text is read as what it says, and nothing has two texts.
pub fn lines_are_spelled_once()
    ensures { LinesAreSpelledOnce }
{}

/// A line of a journal is read as an event exactly where it is the event's one text, in range.
pub fn events_are_spelled_once()
    ensures { EventsAreSpelledOnce }
{}

/// A text is read as a wish exactly where it is the wish's one text, in range.
pub fn wishes_are_spelled_once()
    ensures { WishesAreSpelledOnce }
{}

/// The limits by number: a line has at most 128 bytes, and a run 4,096 wishes.
pub fn limits()
    ensures bytes { MAX_LINE_LEN ≡ 128 }
    ensures wishes { MAX_WISHES ≡ 4096 }
{}

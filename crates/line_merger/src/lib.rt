//! One line of an actor's own journal, taken among all actors.
//!
//! A line is *taken* if its actor can do what it says, and what it reads was said before. It *waits* if nobody said
//! yet what it reads. It is *refused* if its actor can't do it, whatever is said.
//!
//! `take_line` takes a line of any kind. A line that is taken returns its events.
//! The crate promises that each answer is right in the words of `journal_merge`. So the laws of that crate apply:
//! whoever takes lines as long as one can be taken finds a merge of the journals, or knows that there is none.
//!
//! A `Judge` takes lines of any kind too, however many messages were said. It keeps only the actors, and the frames of the
//! messages.
//!
//! It stands on `journal_merge`, `own_journals` and `world_machine`, and on `frame_numbers` for the frames that were
//! said.
#![tactic(auto)]

mod events;
mod judging;
mod lines;
mod lives;
mod offers;
mod readings;

pub use events::take_event;
pub use judging::Judge;
pub use lines::{take_line, try_line};
pub use lives::take_life;
pub use offers::{MergeFault, Offer, Refusal, Taken};
pub use readings::{reading_by, take_frame};

//! Merging the journals that actors write alone, line by line.
//!
//! `Journals` holds the journals that are to be merged, each a reader: `add` reads the first line of one, which says
//! whose journal it is. `merge` takes any next line that can be taken, as long as there is one. It writes the events of
//! the lines that it takes, with numbers for messages, as a journal of all actors.
//!
//! The crate promises, in the words of `journal_merge`: if it says `Merged`, the journals have a merge, and the text of
//! one was written. If it says `Stuck`, they have none: then `next_line` shows which line of each journal is left, and
//! why. Then, and after a fault, a beginning of the text of a history was written. It holds the world and one line of
//! each journal. The frames of the messages that were said are taken in only if a line reads one that was said long
//! before.
//!
//! `judge` writes no journal. It says `Merged` and `Stuck` in the same cases, however many messages are said: it holds the
//! actors, one line of each journal, and the frames.
//!
//! It stands on `line_merger` for a line, `own_journals` for the text of a line, `line_streams` for reading and
//! writing, `event_lines` for the lines that it writes, and `journal_text` for the words about them.
#![tactic(auto)]

mod faults;
mod finding;
mod journals;
mod judging;
mod merging;
mod reading;
mod settling;
mod writing;

pub use faults::{Failure, JournalsFault};
pub use journals::{Journals, LineLeft};
pub use judging::judge;
pub use merging::{Outcome, merge};
pub use reading::MAX_OWN_LINE_LEN;

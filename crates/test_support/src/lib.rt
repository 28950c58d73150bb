//! What two or more test crates share, each helper once: values, policies, worlds, records, the texts of journals
//! and a few readers' and writers' parts. A library for the test crates, and for them alone.
//!
//! A helper that can fail returns a `Failure`, so that a test goes on by `?`. The crate promises what a test's own
//! proof needs: which ballots, which world and which bytes come back. It tests nothing itself.
//!
//! It stands on `test_outcomes`, on the crates whose values it makes, and on no book. `book_support` is for tests
//! that log in one.
#![tactic(auto)]

mod inboxes;
mod journals;
mod node_records;
mod policies;
mod records;
mod tallies;
mod values;
mod worlds;
mod writers;

pub use inboxes::Inbox;
pub use journals::{Match, count_of, place_of, text_of, told};
pub use node_records::{LETS_IN, NOTHING_KEPT, READS, SOFTENED, WAITS, WRITES, nothing_kept};
pub use policies::{plain_pair, plain_pairs};
pub use records::{Device, in_memory, on_a_faulty_device, on_a_plate};
pub use tallies::Tally;
pub use values::{attempt, client, event, first_ticket, in_row, node, resource, ticket, weather};
pub use worlds::{SETTINGS, ballots_of, new_world};
pub use writers::Full;

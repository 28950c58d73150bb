//! Tests of books and berths, by their public calls alone.
//!
//! What the contracts say is proved, and is not tried here again. Tried are the worked values, each
//! number that a book answers, the greatest history and the longest list of messages, and what no
//! contract sees: that a call succeeds where there is memory, and that a journal that is written is read
//! by an audit as sound. The crate has no code but tests; each file is named for what it shows.
#![tactic(auto)]

#[cfg(test)]
mod books;
#[cfg(test)]
mod courses;
#[cfg(test)]
mod full;
#[cfg(test)]
mod generator;
#[cfg(test)]
mod journals;
#[cfg(test)]
mod logging;
#[cfg(test)]
mod meetings;
#[cfg(test)]
mod random_events;
#[cfg(test)]
mod scripts;
#[cfg(test)]
mod switches;
#[cfg(test)]
mod worlds;
#[cfg(test)]
mod writers;

//! Tests of pictures, by public calls alone: which marks are drawn of a journal, and how they are spelled.
//!
//! What the contracts say is proved, and is not tried here again. Tried are worked journals with their marks,
//! each part of one, marks of the least and the greatest size as SVG, texts in XML, whole pictures, and readers
//! and a writer that fail. Each call asks for memory in some test of under 300 requests, so that `tools/sweep` refuses each
//! of them. The crate has no code but tests; each file is named for what it shows.
#![tactic(auto)]

#[cfg(test)]
mod drawings;
#[cfg(test)]
mod elements;
#[cfg(test)]
mod failing;
#[cfg(test)]
mod listing;
#[cfg(test)]
mod marks;
#[cfg(test)]
mod playing;
#[cfg(test)]
mod texts;

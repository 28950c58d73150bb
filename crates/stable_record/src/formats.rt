// What records have in common.

/// The layout of records that this crate writes and reads.
pub(crate) const VERSION: u8 = 1;

/// The most bytes that a record has that is kept.
pub const MAX_RECORD_LEN: usize = 60_000;

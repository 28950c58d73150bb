// What may go wrong at a stream.

use thiserror::Error;

/// Why a line wasn't read, or a text not written.
#[derive(Clone, Copy, Debug, PartialEq, Eq, Error)]
pub enum StreamFault {
    /// The reader failed, or it was asked as often as it may be.
    #[error("the input couldn't be read")]
    Read,
    /// The writer failed, or took nothing.
    #[error("the output couldn't be written")]
    Write,
    /// Memory was refused.
    #[error("there was no memory")]
    Memory,
}
